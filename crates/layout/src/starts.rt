// Where a record starts, by its number: an area's from the tariff's start, a factor record's and a stop's from its end.
ghost use Rattle.std.specs.Prelude.{◌≡◌, ◌%◌, ◌^◌, ◌<◌, length};
ghost use Rattle.layout.specs.Layout.{most_areas, area_place, stop_place, factor_place, tariff_size};
ghost use Rattle.layout.specs.Clauses.{AreaThere};

use crate::Counts;
use crate::fields::{AREA_SIZE, FACTOR_SIZE, LONG_MORE, STOP_SIZE};

// Which areas before one are of kind 8: the bits below its own.
fn long_before(longs: u32, number: usize) -> u32
    requires { number < most_areas }
    ensures { result ≡ longs % 2 ^ number }
{
    longs % (1 << number)
}

// Where the record of an area begins: each before it has one length, and so much more if it is of kind 8. Bits are slow to count, so that is
// done only where there are some.
pub fn area_place(b: &[u8], counts: Counts, number: usize) -> usize
    requires { AreaThere b.now counts number }
    ensures { result ≡ area_place b.now number }
{
    if counts.longs == 0 {
        return AREA_SIZE * number;
    }
    let before = long_before(counts.longs, number);
    if before == 0 {
        return AREA_SIZE * number;
    }
    AREA_SIZE * number + LONG_MORE * u32::count_ones(before) as usize
}

// Where a factor record begins, from the tariff's end.
pub fn factor_place(tariff: &[u8], counts: Counts, number: usize) -> usize
    requires { (length tariff.now ≡ stop_place counts counts.stops) × (number < counts.factors) }
    ensures { result ≡ factor_place counts number }
{
    tariff.len()
        - STOP_SIZE * counts.stops as usize
        - FACTOR_SIZE * (counts.factors as usize - number)
}

// Where the record of a stop begins, from the tariff's end: no kind of area has to be known.
pub fn stop_place(tariff: &[u8], counts: Counts, number: usize) -> usize
    requires { (length tariff.now ≡ stop_place counts counts.stops) × (number < counts.stops) }
    ensures { result ≡ stop_place counts number }
{
    tariff.len() - STOP_SIZE * (counts.stops as usize - number)
}

// Where the tariff ends that has these counts.
pub fn tariff_size(counts: Counts) -> usize
    ensures { result ≡ tariff_size counts }
{
    AREA_SIZE * counts.areas as usize
        + LONG_MORE * u32::count_ones(counts.longs) as usize
        + FACTOR_SIZE * counts.factors as usize
        + STOP_SIZE * counts.stops as usize
}
