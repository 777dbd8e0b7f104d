// The ride from one stop of a trip to another: its area contains the stops from the one to the other, its kilometres lie between these two.
// The ride that a whole trip is goes from its first stop to its last.
ghost use Rattle.std.specs.Prelude.{◌≡◌, ◌≤◌, ◌<◌, max, min};
ghost use Rattle.units.specs.Day.{day_minutes};
ghost use Rattle.fare.specs.Distance.{gap, apart, LeastKm};
ghost use Rattle.fare.specs.Rides.{stop_of, AreaOfStops, ride_between};
ghost use Rattle.fare.specs.Clauses.{Riding, InOrder, OnPlane, SquaredBetween, StopOf, DurationOf, ride_on, RideIs, RideOf};

use crate::kilometres::least_km;
use areas::{smallest_containing, stop};
use layout::{Counts, Stop};
use trip::{Ride, Trip, stop_number};
use units::{Km, Metres, Minutes};

fn gap_between(a: Metres, b: Metres) -> u64
    ensures { result ≡ gap a.0 b.0 }
{
    if a.0 <= b.0 {
        (b.0 - a.0) as u64
    } else {
        (a.0 - b.0) as u64
    }
}

// dx² + dy² between two stops.
pub fn squared_between(a: Stop, b: Stop) -> u64
    requires { OnPlane a × OnPlane b }
    ensures { SquaredBetween a b result }
{
    let east = gap_between(a.x, b.x);
    let north = gap_between(a.y, b.y);
    east * east + north * north
}

fn longer_of(a: u64, b: u64) -> u64
    ensures { result ≡ max a b }
{
    if a < b { b } else { a }
}

fn shorter_of(a: u64, b: u64) -> u64
    ensures { result ≡ min a b }
{
    if a < b { a } else { b }
}

// Started kilometres between two stops.
pub fn kilometres(a: Stop, b: Stop) -> Km
    requires { OnPlane a × OnPlane b }
    ensures { LeastKm (apart a b) result.0 }
{
    let east = gap_between(a.x, b.x);
    let north = gap_between(a.y, b.y);
    least_km(longer_of(east, north), shorter_of(east, north))
}

// A stop of the trip, counted from 0, in the tariff.
pub fn stop_of(tariff: &[u8], counts: Counts, trip: &[u8], stops: usize, i: usize) -> Stop
    requires { Riding tariff.now counts trip.now stops × (i < stops) }
    ensures { StopOf tariff.now counts trip.now i result }
{
    stop(tariff, counts, stop_number(trip, i))
}

// The smallest area that contains the stops `first` to `last` of the trip.
pub fn area_of_stops(
    tariff: &[u8],
    counts: Counts,
    trip: &[u8],
    stops: usize,
    first: usize,
    last: usize,
) -> usize
    requires { Riding tariff.now counts trip.now stops × ((first ≤ last) × (last < stops)) }
    ensures { AreaOfStops tariff.now counts trip.now first last result }
{
    // Borrowed anew, they come in registers; else each caller keeps copies of the slices on the stack for us.
    let tariff = &*tariff;
    let trip = &*trip;
    let mut area = stop_of(tariff, counts, trip, stops, first).area as usize;
    for i in first..last {
        let next = stop_of(tariff, counts, trip, stops, i + 1).area as usize;
        area = smallest_containing(tariff, counts, area, next);
    }
    area
}

// The same where mostly no stop lies between them: then it is the smallest that contains two, which are read here for the kilometres anyway.
fn area_between(
    tariff: &[u8],
    counts: Counts,
    trip: &[u8],
    stops: usize,
    first: usize,
    last: usize,
) -> usize
    requires { Riding tariff.now counts trip.now stops × ((first ≤ last) × (last < stops)) }
    ensures { AreaOfStops tariff.now counts trip.now first last result }
{
    if last != first + 1 {
        return area_of_stops(tariff, counts, trip, stops, first, last);
    }
    let from = stop_of(tariff, counts, trip, stops, first).area as usize;
    let to = stop_of(tariff, counts, trip, stops, last).area as usize;
    smallest_containing(tariff, counts, from, to)
}

// Started kilometres between the stops `first` and `last` of the trip.
pub fn km_between(
    tariff: &[u8],
    counts: Counts,
    trip: &[u8],
    stops: usize,
    first: usize,
    last: usize,
) -> Km
    requires { Riding tariff.now counts trip.now stops × ((first < stops) × (last < stops)) }
    ensures { LeastKm (apart (stop_of tariff.now counts trip.now first)
        (stop_of tariff.now counts trip.now last)) result.0 }
{
    let from = stop_of(tariff, counts, trip, stops, first);
    let to = stop_of(tariff, counts, trip, stops, last);
    kilometres(from, to)
}

// A ride of the trip in an area, so far and so long. It is small, and so a trip's fields stay in registers from where they are read on.
pub fn ride_on(trip: Trip, area: usize, km: Km, minutes: Minutes) -> Ride
    ensures { result ≡ ride_on trip area km.0 minutes.0 }
{
    let party = trip.party;
    Ride {
        area,
        km,
        minutes,
        class: trip.class,
        level: trip.level,
        party,
    }
}

// Check-out minus check-in.
pub fn duration(trip: Trip) -> Minutes
    requires { InOrder trip }
    ensures { DurationOf trip result.0 }
{
    let checkin = trip.checkin;
    let checkout = trip.checkout;
    Minutes(checkout.0 - checkin.0)
}

// The ride from one stop of the trip to another, in so many minutes.
pub fn ride_between(
    tariff: &[u8],
    counts: Counts,
    bytes: &[u8],
    trip: Trip,
    from: usize,
    to: usize,
    minutes: Minutes,
) -> Ride
    requires { Riding tariff.now counts bytes.now trip.stops × ((from ≤ to) × ((to < trip.stops) × (minutes.0 ≤ day_minutes))) }
    ensures { RideIs counts (ride_between tariff.now counts bytes.now trip from to minutes.0) result }
{
    let stops = trip.stops;
    let area = area_between(tariff, counts, bytes, stops, from, to);
    let km = km_between(tariff, counts, bytes, stops, from, to);
    ride_on(trip, area, km, minutes)
}

// The ride that a whole trip is: from its first stop to its last.
pub fn ride_of(tariff: &[u8], counts: Counts, bytes: &[u8], trip: Trip) -> Ride
    requires { Riding tariff.now counts bytes.now trip.stops × InOrder trip }
    ensures { RideOf tariff.now counts bytes.now trip result }
{
    let last = trip.stops - 1;
    ride_between(tariff, counts, bytes, trip, 0, last, duration(trip))
}
