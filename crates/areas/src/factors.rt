// The factor record that holds for an area: that of the region that contains it, or the state's. The state and the regions have one each,
// in the order of the areas.
ghost use Rattle.std.specs.Prelude.{◌≡◌, ◌<◌};
ghost use Rattle.layout.specs.Rules.{wide_areas};
ghost use Rattle.layout.specs.Scan.{Read};
ghost use Rattle.areas.specs.Factors.{is_city};
ghost use Rattle.areas.specs.Clauses.{RegionOf, FactorOf};

use crate::{level, parent};
use layout::fields::{area_end, factor_fields, level_at};
use layout::rules::{CITY, wide_with};
use layout::starts::factor_place;
use layout::{Counts, Factor};

// How many areas before one are the state or a region: their records are walked over.
fn wide_before(tariff: &[u8], counts: Counts, number: usize) -> u8
    requires { Read tariff.now counts × (number < counts.areas) }
    ensures { result ≡ wide_areas tariff.now number }
{
    let mut wide = 0;
    let mut at = 0;
    for i in 0..number {
        wide = wide_with(level_at(tariff, at), wide);
        at = area_end(tariff, at);
    }
    wide
}

// Whether an area is a city.
pub fn is_city(tariff: &[u8], counts: Counts, area: usize) -> bool
    requires { Read tariff.now counts × (area < counts.areas) }
    ensures { result ≡ is_city tariff.now area }
{
    level(tariff, counts, area) == CITY
}

// The region that contains an area, else the state.
fn region_of(tariff: &[u8], counts: Counts, area: usize) -> usize
    requires { Read tariff.now counts × (area < counts.areas) }
    ensures { RegionOf tariff.now counts area result }
{
    if is_city(tariff, counts, area) {
        parent(tariff, counts, area)
    } else {
        area
    }
}

pub fn factor_of(tariff: &[u8], counts: Counts, area: usize) -> Factor
    requires { Read tariff.now counts × (area < counts.areas) }
    ensures { FactorOf tariff.now counts area result }
{
    let number = wide_before(tariff, counts, region_of(tariff, counts, area));
    factor_fields(tariff, factor_place(tariff, counts, number as usize))
}
