// The price of a ride, each step in its own units. All prices use the ride's own area, and its kind decides between two ways: the four steps
// of kind 1, and those of kind 8, where adults and children part.
#![tactic(auto)]

ghost use Rattle.std.specs.Prelude.{◌≡◌, ◌*◌, ◌≤◌};
ghost use Rattle.units.specs.Day.{day_minutes};
ghost use Rattle.units.specs.Plane.{most_km};
ghost use Rattle.units.specs.Price.{most_price};
ghost use Rattle.areas.specs.Areas.{AreaRanges};
ghost use Rattle.prices.specs.Prices.{
  most_base_part,
  most_km_part,
  most_far,
  base_part,
  km_part,
  step1,
  step2,
  step3,
  trip_cap,
  common_price,
  town_step1,
  ticket_in,
  raised_or_compared,
  aachen_adult,
  aachen_child,
  price_of,
};
ghost use Rattle.prices.specs.Clauses.{Amount, Priceable};

use areas::marked;
use layout::{Area, Kind, Town, TripCap};
use trip::Ride;
use units::levels::{LevelCap, level_cap};
use units::{Cap, Cents, Km, Minutes, capped, raised, reduced, started_periods};

// 1. Base price × periods + km price × km.
fn base_part(area: Area, minutes: Minutes) -> Cents
    requires { AreaRanges area × (minutes.0 ≤ day_minutes) }
    ensures { Amount most_base_part (base_part area minutes.0) result.0 }
{
    let base = area.base_price;
    let validity = area.validity;
    Cents(base.0 * started_periods(minutes, validity))
}

fn km_part(area: Area, km: Km) -> Cents
    requires { AreaRanges area × (km.0 ≤ most_km) }
    ensures { Amount most_km_part (km_part area km.0) result.0 }
{
    let rate = area.price_per_km;
    Cents(rate.0 * km.0)
}

fn distance_price(area: Area, minutes: Minutes, km: Km) -> Cents
    requires { AreaRanges area × ((minutes.0 ≤ day_minutes) × (km.0 ≤ most_km)) }
    ensures { Amount most_far (step1 area minutes.0 km.0) result.0 }
{
    let base = base_part(area, minutes);
    let far = km_part(area, km);
    Cents(base.0 + far.0)
}

// The trip cap of a ride, where it has one: flat up to its minutes, or by ticket level. No ride has a level that is refused here: its trip
// was refused with 6 before.
fn trip_cap(sort: TripCap, minutes: Minutes, level: u8) -> Cap
    ensures { result ≡ trip_cap sort minutes.0 level }
{
    match sort {
        TripCap::NoCap => Cap::NoCap,
        TripCap::Flat(amount, most) => {
            if minutes.0 <= most.0 {
                Cap::UpTo(amount)
            } else {
                Cap::NoCap
            }
        }
        TripCap::ByLevel(k, a, b, c, d) => match level_cap(k, a, b, c, d, level) {
            LevelCap::UpTo(amount) => Cap::UpTo(amount),
            LevelCap::NoCap => Cap::NoCap,
            LevelCap::Refused => Cap::NoCap,
        },
    }
}

// 2. The smaller of step 1 and the trip cap.
fn trip_capped(area: Area, amount: Cents, minutes: Minutes, level: u8) -> Cents
    ensures { Amount amount.0 (step2 area minutes.0 level amount.0) result.0 }
{
    let sort = area.trip_cap;
    capped(amount, trip_cap(sort, minutes, level))
}

// 3. First class: raised by the surcharge. Second class: unchanged.
fn in_class(area: Area, amount: Cents, class: u8) -> Cents
    requires { AreaRanges area × (amount.0 ≤ most_far) }
    ensures { Amount (2 * amount.0) (step3 area class amount.0) result.0 }
{
    if class == 1 {
        raised(amount, area.surcharge)
    } else {
        amount
    }
}

// The price in an area of kind 1, for an adult, or for a child: 4. reduced by the child's percentage.
fn common_price(area: Area, ride: Ride, child: bool) -> Cents
    requires { Priceable area ride }
    ensures { Amount most_price (common_price area ride child) result.0 }
{
    let minutes = ride.minutes;
    let km = ride.km;
    let far = distance_price(area, minutes, km);
    let trip = trip_capped(area, far, minutes, ride.level);
    let adult = in_class(area, trip, ride.class);
    if child {
        reduced(adult, area.reduction)
    } else {
        adult
    }
}

// Kind 8: step 1, without what the town drops.
fn town_price(area: Area, town: Town, ride: Ride) -> Cents
    requires { Priceable area ride }
    ensures { Amount most_far (town_step1 area town ride) result.0 }
{
    let minutes = ride.minutes;
    let km = ride.km;
    match town {
        Town::Unmarked => distance_price(area, minutes, km),
        Town::BaseDropped => km_part(area, km),
        Town::KmDropped => base_part(area, minutes),
    }
}

// The trip cap or child ticket of a ride in an area of kind 8: none in a marked town.
fn ticket_in(town: Town, sort: TripCap, ride: Ride) -> Cap
    ensures { result ≡ ticket_in town sort ride }
{
    if marked(town) {
        return Cap::NoCap;
    }
    let minutes = ride.minutes;
    trip_cap(sort, minutes, ride.level)
}

// Kind 8: first class raised by the surcharge and not compared; second class compared with the ticket.
fn raised_or_compared(area: Area, amount: Cents, ticket: Cap, class: u8) -> Cents
    requires { AreaRanges area × (amount.0 ≤ most_far) }
    ensures { Amount most_price (raised_or_compared area class ticket amount.0) result.0 }
{
    if class == 1 {
        raised(amount, area.surcharge)
    } else {
        capped(amount, ticket)
    }
}

// The price for an adult in an area of kind 8.
fn aachen_adult(area: Area, town: Town, ride: Ride) -> Cents
    requires { Priceable area ride }
    ensures { Amount most_price (aachen_adult area town ride) result.0 }
{
    let sort = area.trip_cap;
    let far = town_price(area, town, ride);
    let most = ticket_in(town, sort, ride);
    raised_or_compared(area, far, most, ride.class)
}

// The price for a child there: reduced before the class and the child ticket.
fn aachen_child(area: Area, sort: TripCap, town: Town, ride: Ride) -> Cents
    requires { Priceable area ride }
    ensures { Amount most_price (aachen_child area sort town ride) result.0 }
{
    let less = reduced(town_price(area, town, ride), area.reduction);
    let ticket = ticket_in(town, sort, ride);
    raised_or_compared(area, less, ticket, ride.class)
}

// The price of a ride for an adult or a child, by the kind of its area.
pub fn price(area: Area, ride: Ride, child: bool) -> Cents
    requires { Priceable area ride }
    ensures { Amount most_price (price_of area ride child) result.0 }
{
    let kind = area.kind;
    match kind {
        Kind::Common => common_price(area, ride, child),
        Kind::Aachen {
            child_ticket,
            bicycle_price,
            town,
        } => {
            if child {
                aachen_child(area, child_ticket, town, ride)
            } else {
                aachen_adult(area, town, ride)
            }
        }
    }
}
