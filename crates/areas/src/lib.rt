// Areas and stops by number, of a faultless tariff; the areas above an area, and the smallest that contains two.
//
// factors.rt  the factor record that holds for an area
#![tactic(auto)]

ghost use Rattle.std.specs.Prelude.{◌≡◌, true, ◌≤◌, ◌<◌, length};
ghost use Rattle.layout.specs.Layout.{kind_at, area_end};
ghost use Rattle.layout.specs.Fields.{long_fields};
ghost use Rattle.layout.specs.Scan.{Read};
ghost use Rattle.layout.specs.Rules.{level_of};
ghost use Rattle.areas.specs.Areas.{
  cap_of,
  trip_cap_of,
  child_ticket_of,
  town_of,
  kind_with,
  day_cap_of,
  area_of,
  area_at,
  stop_at,
  is_aachen,
  town_at,
  lies_within,
  Smallest,
  is_marked,
  in_marked_town,
};
ghost use Rattle.areas.specs.Clauses.{limits_of, ParentOf, FlatOf, BicyclePriceOf};

use layout::fields::{
    AACHEN_KIND, AreaFields, LongFields, NO_DAY_CAP, area_fields, bicycle_price_at, day_cap_at,
    flat_at, kind_at, level_at, long_fields, parent_at, reduction_at, stop_fields, surcharge_at,
    town_at,
};
use layout::starts::{area_place, stop_place};
use layout::{Area, Counts, Kind, Limits, Stop, Town, TripCap};
use units::{Cap, Cents, Metres, Minutes};

pub mod factors;

// The trip cap of a sort: flat up to some minutes, or by level.
fn cap_of(sort: u8, minutes: u16, k: u16, a: u16, b: u16, c: u16, d: u16) -> TripCap
    ensures { result ≡ cap_of sort minutes k a b c d }
{
    match sort {
        1 => TripCap::Flat(Cents(k as u32), Minutes(minutes as u32)),
        2 => TripCap::ByLevel(
            Cents(k as u32),
            Cents(a as u32),
            Cents(b as u32),
            Cents(c as u32),
            Cents(d as u32),
        ),
        _ => TripCap::NoCap,
    }
}

fn trip_cap_of(f: AreaFields) -> TripCap
    ensures { result ≡ trip_cap_of f }
{
    cap_of(f.sort, f.cap2, f.cap1, f.cap2, f.cap3, f.cap4, f.cap5)
}

// A child ticket has the adult's sort and minutes.
fn child_ticket_of(f: AreaFields, g: LongFields) -> TripCap
    ensures { result ≡ child_ticket_of f g }
{
    cap_of(
        f.sort, f.cap2, g.child1, g.child2, g.child3, g.child4, g.child5,
    )
}

fn town_of(mark: u8) -> Town
    ensures { result ≡ town_of mark }
{
    match mark {
        1 => Town::BaseDropped,
        2 => Town::KmDropped,
        _ => Town::Unmarked,
    }
}

// The kind of the area whose record stands at a place.
fn kind_with(b: &[u8], at: usize, f: AreaFields) -> Kind
    requires { area_end b.now at ≤ length b.now }
    ensures { result ≡ kind_with (kind_at b.now at) f (long_fields b.now at) }
{
    if kind_at(b, at) == AACHEN_KIND {
        let g = long_fields(b, at);
        Kind::Aachen {
            child_ticket: child_ticket_of(f, g),
            bicycle_price: Cents(g.bicycle_price as u32),
            town: town_of(g.town),
        }
    } else {
        Kind::Common
    }
}

fn day_cap_of(amount: u16) -> Cap
    ensures { result ≡ day_cap_of amount }
{
    if amount == NO_DAY_CAP {
        Cap::NoCap
    } else {
        Cap::UpTo(Cents(amount as u32))
    }
}

// An area in its units, out of the numbers of its record.
fn area_of(f: AreaFields, kind: Kind) -> Area
    ensures { result ≡ area_of f kind }
{
    Area {
        level: f.level,
        parent: f.parent,
        base_price: Cents(f.base_price as u32),
        price_per_km: Cents(f.price_per_km as u32),
        validity: Minutes(f.validity as u32),
        surcharge: f.surcharge,
        reduction: f.reduction,
        trip_cap: trip_cap_of(f),
        day_cap: day_cap_of(f.day_cap),
        bicycle_flat: Cents(f.bicycle_flat as u32),
        kind,
    }
}

pub fn area(tariff: &[u8], counts: Counts, number: usize) -> Area
    requires { Read tariff.now counts × (number < counts.areas) }
    ensures { result ≡ area_at tariff.now number }
{
    let at = area_place(tariff, counts, number);
    let f = area_fields(tariff, at);
    area_of(f, kind_with(tariff, at, f))
}

pub fn stop(tariff: &[u8], counts: Counts, number: usize) -> Stop
    requires { Read tariff.now counts × (number < counts.stops) }
    ensures { result ≡ stop_at tariff.now counts number }
{
    let f = stop_fields(tariff, stop_place(tariff, counts, number));
    Stop {
        area: f.area,
        x: Metres(f.x),
        y: Metres(f.y),
    }
}

pub fn limits(tariff: &[u8], counts: Counts, number: usize) -> Limits
    requires { Read tariff.now counts × (number < counts.areas) }
    ensures { result ≡ limits_of (area_at tariff.now number) }
{
    let at = area_place(tariff, counts, number);
    Limits {
        day_cap: day_cap_of(day_cap_at(tariff, at)),
        surcharge: surcharge_at(tariff, at),
        reduction: reduction_at(tariff, at),
    }
}

// The area above an area; the state is its own.
pub fn parent(tariff: &[u8], counts: Counts, number: usize) -> usize
    requires { Read tariff.now counts × (number < counts.areas) }
    ensures { ParentOf tariff.now counts number result }
{
    parent_at(tariff, area_place(tariff, counts, number)) as usize
}

// An area's level: 0 the state, 1 a region, 2 a city; as many areas lie above it.
pub fn level(tariff: &[u8], counts: Counts, number: usize) -> u8
    requires { Read tariff.now counts × (number < counts.areas) }
    ensures { result ≡ level_of tariff.now number }
{
    level_at(tariff, area_place(tariff, counts, number))
}

// An area's bicycle flat; in an area of kind 8 the bicycle's cap per window.
pub fn flat(tariff: &[u8], counts: Counts, number: usize) -> Cents
    requires { Read tariff.now counts × (number < counts.areas) }
    ensures { FlatOf tariff.now number result.0 }
{
    Cents(flat_at(tariff, area_place(tariff, counts, number)) as u32)
}

// Whether an area is of kind 8.
pub fn is_aachen(tariff: &[u8], counts: Counts, number: usize) -> bool
    requires { Read tariff.now counts × (number < counts.areas) }
    ensures { result ≡ is_aachen tariff.now number }
{
    kind_at(tariff, area_place(tariff, counts, number)) == AACHEN_KIND
}

// The bicycle price per trip of an area of kind 8.
pub fn bicycle_price(tariff: &[u8], counts: Counts, number: usize) -> Cents
    requires { Read tariff.now counts × (number < counts.areas) × (is_aachen tariff.now number ≡ true) }
    ensures { BicyclePriceOf tariff.now number result.0 }
{
    Cents(bicycle_price_at(tariff, area_place(tariff, counts, number)) as u32)
}

// An area's town mark; an area of kind 1 has none.
pub fn town(tariff: &[u8], counts: Counts, number: usize) -> Town
    requires { Read tariff.now counts × (number < counts.areas) }
    ensures { result ≡ town_at tariff.now number }
{
    let at = area_place(tariff, counts, number);
    if kind_at(tariff, at) == AACHEN_KIND {
        town_of(town_at(tariff, at))
    } else {
        Town::Unmarked
    }
}

pub fn marked(town: Town) -> bool
    ensures { result ≡ is_marked town }
{
    match town {
        Town::Unmarked => false,
        Town::BaseDropped => true,
        Town::KmDropped => true,
    }
}

// Whether an area is a marked town.
pub fn in_marked_town(tariff: &[u8], counts: Counts, area: usize) -> bool
    requires { Read tariff.now counts × (area < counts.areas) }
    ensures { result ≡ in_marked_town tariff.now area }
{
    marked(town(tariff, counts, area))
}

// There are three levels: the area above the area above any is the state.
const STATE: usize = 0;

// Whether an area is, or lies within, another.
pub fn lies_within(tariff: &[u8], counts: Counts, inner: usize, outer: usize) -> bool
    requires { Read tariff.now counts × (inner < counts.areas) }
    ensures { result ≡ lies_within tariff.now inner outer }
{
    let above = parent(tariff, counts, inner);
    (inner == outer) | (above == outer) | (STATE == outer)
}

// The smallest area that contains two: the walk goes up from the one until the other lies within. Mostly both are one, and no area is looked up.
pub fn smallest_containing(tariff: &[u8], counts: Counts, a: usize, b: usize) -> usize
    requires { Read tariff.now counts × ((a < counts.areas) × (b < counts.areas)) }
    ensures { Smallest tariff.now counts a b result }
{
    // Borrowed anew, it comes in a register; else each caller keeps a copy of the slice on the stack for us.
    let tariff = &*tariff;
    if a == b {
        return a;
    }
    if a == STATE {
        return a;
    }
    let near = parent(tariff, counts, b);
    if near == a {
        return a;
    }
    let above = parent(tariff, counts, a);
    if above == b {
        return above;
    }
    if above == near {
        return above;
    }
    STATE
}
