// Out and back: where a trip that comes back is broken, and the rides that its two parts are.
ghost use Rattle.std.specs.Prelude.{◌≡◌, ◌-◌, ◌≤◌, ◌<◌};
ghost use Rattle.layout.specs.Rules.{most_factor};
ghost use Rattle.layout.specs.Scan.{Read};
ghost use Rattle.areas.specs.Factors.{factor_of};
ghost use Rattle.fare.specs.Parts.{FarthestChange, kept_whole, comes_back, comes_back_from, first_part, second_part};
ghost use Rattle.fare.specs.Clauses.{Riding, InOrder, OnPlane, BreakOf, RideIs};

use crate::Breaking;
use crate::rides::{area_of_stops, duration, ride_between, squared_between, stop_of};
use areas::factors::{factor_of, is_city};
use layout::{Counts, Stop};
use trip::{Ride, Trip};
use units::Minutes;

// The change that is farthest from the trip's first stop, the first of equals.
pub fn farthest_change(tariff: &[u8], counts: Counts, bytes: &[u8], stops: usize) -> usize
    requires { Riding tariff.now counts bytes.now stops × (3 ≤ stops) }
    ensures { FarthestChange tariff.now counts bytes.now (stops - 1) result }
{
    let from = stop_of(tariff, counts, bytes, stops, 0);
    let mut change = 1;
    let mut far = squared_between(from, stop_of(tariff, counts, bytes, stops, 1));
    for i in 2..stops - 1 {
        let next = squared_between(from, stop_of(tariff, counts, bytes, stops, i));
        if far < next {
            change = i;
            far = next;
        }
    }
    change
}

// Whether a trip with this area is never broken: it is a city, and its region says so.
fn kept_whole(tariff: &[u8], counts: Counts, area: usize, mark: u8) -> bool
    requires { Read tariff.now counts × ((area < counts.areas) × (mark ≡ (factor_of tariff.now counts area).mark)) }
    ensures { result ≡ kept_whole tariff.now counts area }
{
    is_city(tariff, counts, area) & (mark == 1)
}

// Whether a trip comes back from its farthest change: to its first stop's point, or so near to it that the change is more than f times as
// far away.
fn comes_back(first: Stop, last: Stop, change: Stop, factor: u8) -> bool
    requires { OnPlane first × (OnPlane last × (OnPlane change × (factor ≤ most_factor))) }
    ensures { result ≡ comes_back first last change factor }
{
    let f = factor as u64;
    (first.x.0 == last.x.0) & (first.y.0 == last.y.0)
        | (f * f * squared_between(first, last) < squared_between(first, change))
}

// The same of a trip's own stops.
fn comes_back_from(
    tariff: &[u8],
    counts: Counts,
    bytes: &[u8],
    stops: usize,
    c: usize,
    factor: u8,
) -> bool
    requires { Riding tariff.now counts bytes.now stops × ((c < stops) × (factor ≤ most_factor)) }
    ensures { result ≡ comes_back_from tariff.now counts bytes.now (stops - 1) c factor }
{
    let first = stop_of(tariff, counts, bytes, stops, 0);
    let last = stop_of(tariff, counts, bytes, stops, stops - 1);
    let change = stop_of(tariff, counts, bytes, stops, c);
    comes_back(first, last, change, factor)
}

// Where a trip of so many stops is broken. No factor is below 1: a trip that does not come back under 1 is broken under none, and neither its area
// nor the factor that holds there is looked for.
pub fn break_of(tariff: &[u8], counts: Counts, bytes: &[u8], stops: usize) -> Breaking
    requires { Riding tariff.now counts bytes.now stops }
    ensures { BreakOf tariff.now counts bytes.now stops result }
{
    if stops < 3 {
        return Breaking::Unbroken;
    }
    let c = farthest_change(tariff, counts, bytes, stops);
    if !comes_back_from(tariff, counts, bytes, stops, c, 1) {
        return Breaking::Unbroken;
    }
    let area = area_of_stops(tariff, counts, bytes, stops, 0, stops - 1);
    let says = factor_of(tariff, counts, area);
    if kept_whole(tariff, counts, area, says.mark) {
        return Breaking::Unbroken;
    }
    if comes_back_from(tariff, counts, bytes, stops, c, says.factor) {
        Breaking::At(c)
    } else {
        Breaking::Unbroken
    }
}

// The first part of a trip that is broken at the change c: the ride to there, in the whole duration.
pub fn first_part(tariff: &[u8], counts: Counts, bytes: &[u8], trip: Trip, c: usize) -> Ride
    requires { Riding tariff.now counts bytes.now trip.stops × (InOrder trip × (c < trip.stops)) }
    ensures { RideIs counts (first_part tariff.now counts bytes.now trip c) result }
{
    ride_between(tariff, counts, bytes, trip, 0, c, duration(trip))
}

// The second part: the ride from there on, in 0 minutes, at the check-out.
pub fn second_part(tariff: &[u8], counts: Counts, bytes: &[u8], trip: Trip, c: usize) -> Ride
    requires { Riding tariff.now counts bytes.now trip.stops × (c < trip.stops) }
    ensures { RideIs counts (second_part tariff.now counts bytes.now trip c) result }
{
    let last = trip.stops - 1;
    ride_between(tariff, counts, bytes, trip, c, last, Minutes(0))
}
