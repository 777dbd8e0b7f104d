// First class in a marked town: the second row of 6. It goes by a trip's stops and class, and is tested before its stamps are read.
ghost use Rattle.std.specs.Prelude.{◌≡◌, ◌≤◌, ◌<◌};
ghost use Rattle.fare.specs.Clauses.{Riding, BreakOf, between_in_town, TownRefuses};

use crate::Breaking;
use crate::rides::area_of_stops;
use areas::in_marked_town;
use layout::Counts;

// Whether the area of the trip's stops `first` to `last` is a marked town.
fn between_in_town(
    tariff: &[u8],
    counts: Counts,
    bytes: &[u8],
    stops: usize,
    first: usize,
    last: usize,
) -> bool
    requires { Riding tariff.now counts bytes.now stops × ((first ≤ last) × (last < stops)) }
    ensures { result ≡ between_in_town tariff.now counts bytes.now first last }
{
    let area = area_of_stops(tariff, counts, bytes, stops, first, last);
    in_marked_town(tariff, counts, area)
}

// Whether a trip of so many stops and this class, broken there or nowhere, is refused: it is of class 1, and the area of the whole trip,
// or of one of its parts, is a marked town.
pub fn town_refuses(
    tariff: &[u8],
    counts: Counts,
    bytes: &[u8],
    stops: usize,
    class: u8,
    breaking: Breaking,
) -> bool
    requires { Riding tariff.now counts bytes.now stops × ((2 ≤ stops) × BreakOf tariff.now counts bytes.now stops breaking) }
    ensures { TownRefuses tariff.now counts bytes.now stops class result }
{
    if class != 1 {
        return false;
    }
    let last = stops - 1;
    match breaking {
        Breaking::Unbroken => between_in_town(tariff, counts, bytes, stops, 0, last),
        Breaking::At(c) => {
            between_in_town(tariff, counts, bytes, stops, 0, c)
                | between_in_town(tariff, counts, bytes, stops, c, last)
        }
    }
}
