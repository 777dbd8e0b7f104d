// Which values a record may have: the ranges, the trip-cap sorts and their zeros, levels, parents, kinds and flats.
ghost use Rattle.std.specs.Prelude.{◌≡◌, true, cond, ◌+◌, ◌≤◌, length, eqb, ltb};
ghost use Rattle.wire.specs.Frame.{head_size};
ghost use Rattle.layout.specs.Layout.{aachen_kind, area_body_of, most_areas};
ghost use Rattle.layout.specs.Fields.{long_fields};
ghost use Rattle.layout.specs.Rules.{prices_right, trip_cap_right, caps_right, tickets_right, long_right, place_right, factor_right, stop_right};
ghost use Rattle.layout.specs.Clauses.{AreasThere};

use crate::fields::{
    AACHEN_KIND, AreaFields, COMMON_KIND, LongFields, NO_DAY_CAP, StopFields, flat_at, kind_at,
    level_at, long_fields,
};
use crate::starts::area_place;
use crate::{Counts, Factor};

const MOST_BASE_PRICE: u16 = 10_000;

const MOST_PRICE_PER_KM: u16 = 1_000;

const LEAST_MINUTES: u16 = 30;

const MOST_MINUTES: u16 = 1_440;

const MOST_PERCENT: u8 = 100;
// All other money.
pub const MONEY: u16 = 60_000;

const MOST_FACTOR: u8 = 9;

const MOST_METRES: u32 = 1_000_000;

// Base, price per km, validity and the percentages.
pub fn prices_right(f: AreaFields) -> bool
    ensures { result ≡ prices_right f }
{
    (f.base_price <= MOST_BASE_PRICE)
        & (f.price_per_km <= MOST_PRICE_PER_KM)
        & (LEAST_MINUTES <= f.validity)
        & (f.validity <= MOST_MINUTES)
        & (f.surcharge <= MOST_PERCENT)
        & (f.reduction <= MOST_PERCENT)
}

// Sort 0: five zeros. Sort 1: amount, minutes, three zeros. Sort 2: five amounts.
pub fn trip_cap_right(f: AreaFields) -> bool
    ensures { result ≡ trip_cap_right f }
{
    let sort = f.sort;
    if sort == 2 {
        return (f.cap1 <= MONEY)
            & (f.cap2 <= MONEY)
            & (f.cap3 <= MONEY)
            & (f.cap4 <= MONEY)
            & (f.cap5 <= MONEY);
    }
    let unused = (f.cap3 == 0) & (f.cap4 == 0) & (f.cap5 == 0);
    if sort == 1 {
        return (f.cap1 <= MONEY) & (LEAST_MINUTES <= f.cap2) & (f.cap2 <= MOST_MINUTES) & unused;
    }
    (sort == 0) & (f.cap1 == 0) & (f.cap2 == 0) & unused
}

// The trip cap, the day cap and the bicycle flat.
pub fn caps_right(f: AreaFields) -> bool
    ensures { result ≡ caps_right f }
{
    trip_cap_right(f)
        & ((f.day_cap <= MONEY) | (f.day_cap == NO_DAY_CAP))
        & (f.bicycle_flat <= MONEY)
}

// The child tickets, by the adult's sort. Sort 0: five zeros. Sort 1: amount, four zeros. Sort 2: five amounts.
pub fn tickets_right(f: AreaFields, g: LongFields) -> bool
    ensures { result ≡ tickets_right f g }
{
    let sort = f.sort;
    if sort == 2 {
        return (g.child1 <= MONEY)
            & (g.child2 <= MONEY)
            & (g.child3 <= MONEY)
            & (g.child4 <= MONEY)
            & (g.child5 <= MONEY);
    }
    let unused = (g.child2 == 0) & (g.child3 == 0) & (g.child4 == 0) & (g.child5 == 0);
    if sort == 1 {
        return (g.child1 <= MONEY) & unused;
    }
    (sort == 0) & (g.child1 == 0) & unused
}

// What kind 8 has besides: the child tickets, the bicycle price, and the town mark, which is 0 unless the area is a city.
pub fn long_right(f: AreaFields, g: LongFields) -> bool
    ensures { result ≡ long_right f g }
{
    tickets_right(f, g)
        & (g.bicycle_price <= MONEY)
        & ((g.town == 0) | ((g.town <= 2) & (f.level == 2)))
}

// Of the record at a place: kind 1 has nothing besides.
pub fn rest_right(b: &[u8], at: usize, kind: u16, f: AreaFields) -> bool
    requires { at + head_size + area_body_of kind ≤ length b.now }
    ensures { result ≡ cond (eqb kind aachen_kind) (long_right f (long_fields b.now at)) true }
{
    if kind == AACHEN_KIND {
        long_right(f, long_fields(b, at))
    } else {
        true
    }
}

// The next area after those so far: area 0 alone has level 0, parent 0, and is of kind 1. A region's parent is 0; a city's is an earlier
// region of its own kind. No flat exceeds the parent's, but that of a region of kind 8 may.
pub fn place_right(b: &[u8], so_far: Counts, kind: u16, f: AreaFields) -> bool
    requires { AreasThere b.now so_far }
    ensures { result ≡ place_right b.now so_far kind f }
{
    let number = so_far.areas;
    if number == 0 {
        return (f.level == 0) & (f.parent == 0) & (kind == COMMON_KIND);
    }
    let parent = f.parent;
    let level = f.level;
    if level == 1 {
        return (parent == 0) & ((kind == AACHEN_KIND) | (f.bicycle_flat <= flat_at(b, 0)));
    }
    if level != 2 {
        return false;
    }
    if number <= parent {
        return false;
    }
    let at = area_place(b, so_far, parent as usize);
    (level_at(b, at) == 1) & (kind_at(b, at) == kind) & (f.bicycle_flat <= flat_at(b, at))
}

// A city's level; the state and the regions have a lower one.
pub const CITY: u8 = 2;

// How many areas up to one, itself too, are the state or a region, from its level and how many are before it.
pub fn wide_with(level: u8, before: u8) -> u8
    requires { before ≤ most_areas }
    ensures { result ≡ before + cond (ltb level 2) 1 0 }
{
    if level < CITY { before + 1 } else { before }
}

// The next factor record after so many: its factor, and its mark, which is 0 in the state's, the first.
pub fn factor_right(f: Factor, before: u8) -> bool
    ensures { result ≡ factor_right f before }
{
    (1 <= f.factor) & (f.factor <= MOST_FACTOR) & ((f.mark == 0) | ((f.mark == 1) & (0 < before)))
}

// A stop's area exists; x and y lie on the plane.
pub fn stop_right(f: StopFields, areas: u8) -> bool
    ensures { result ≡ stop_right f areas }
{
    (f.area < areas) & (f.x <= MOST_METRES) & (f.y <= MOST_METRES)
}
