// Where the fields of an area record, of a factor record and of a stop record stand: the layout of the records, once.
ghost use Rattle.std.specs.Prelude.{◌≡◌, ◌+◌, ◌≤◌, length};
ghost use Rattle.layout.specs.Layout.{area_size, factor_size, stop_size, long_more, long_of, kind_at, area_end};
ghost use Rattle.layout.specs.Fields.{area_fields, long_fields, factor_fields, stop_fields};

use crate::Factor;
use wire::{HEAD, LONGEST_RECORD, four_at, one_at, two_at};

// The two kinds of area record.
pub const COMMON_KIND: u16 = 1;

pub const AACHEN_KIND: u16 = 8;

pub const AREA_BODY: usize = 25;
// The whole record, with its length and kind.
pub const AREA_SIZE: usize = HEAD + AREA_BODY;
// What a record of kind 8 has more.
pub const LONG_MORE: usize = 13;

pub const FACTOR_KIND: u16 = 5;

pub const FACTOR_BODY: usize = 2;

pub const FACTOR_SIZE: usize = HEAD + FACTOR_BODY;

pub const STOP_KIND: u16 = 2;

pub const STOP_BODY: usize = 9;

pub const STOP_SIZE: usize = HEAD + STOP_BODY;

pub const MOST_AREAS: u16 = 32;

pub const MOST_STOPS: u16 = 1_000;
// No tariff is decided by more than its first so many bytes: the most areas, all but the state of kind 8, each with a factor record, the
// most stops, and the longest record, which is one too many.
pub const DECIDING_BYTES: usize = AREA_SIZE * MOST_AREAS as usize
    + LONG_MORE * (MOST_AREAS as usize - 1)
    + FACTOR_SIZE * MOST_AREAS as usize
    + STOP_SIZE * MOST_STOPS as usize
    + LONGEST_RECORD;
// Where a record's kind stands, and where an area's level, parent, bicycle flat, bicycle price and town mark do: what is asked for alone.
const KIND: usize = 2;

const LEVEL: usize = 4;

const PARENT: usize = 5;

const SURCHARGE: usize = 12;

const REDUCTION: usize = 13;

const DAY_CAP: usize = 25;

const FLAT: usize = 27;

const BICYCLE_PRICE: usize = 39;

const TOWN: usize = 41;

// This for a day cap means none.
pub const NO_DAY_CAP: u16 = 65_535;

// An area record's numbers as they stand in its bytes.
#[derive(Clone, Copy)]
pub struct AreaFields {
    pub level: u8,
    pub parent: u8,
    pub base_price: u16,
    pub price_per_km: u16,
    pub validity: u16,
    pub surcharge: u8,
    pub reduction: u8,
    pub sort: u8,
    pub cap1: u16,
    pub cap2: u16,
    pub cap3: u16,
    pub cap4: u16,
    pub cap5: u16,
    pub day_cap: u16,
    pub bicycle_flat: u16,
}

// What a record of kind 8 has behind them.
#[derive(Clone, Copy)]
pub struct LongFields {
    pub child1: u16,
    pub child2: u16,
    pub child3: u16,
    pub child4: u16,
    pub child5: u16,
    pub bicycle_price: u16,
    pub town: u8,
}

#[derive(Clone, Copy)]
pub struct StopFields {
    pub area: u8,
    pub x: u32,
    pub y: u32,
}

// 1 for the longer kind of area record, else 0.
pub fn long_of(kind: u16) -> usize
    ensures { (result ≡ long_of kind) × (result ≤ 1) }
{
    if kind == AACHEN_KIND { 1 } else { 0 }
}

pub fn kind_at(b: &[u8], at: usize) -> u16
    requires { at + 4 ≤ length b.now }
    ensures { result ≡ kind_at b.now at }
{
    two_at(b, at + KIND)
}

// Where the area record at a place ends.
pub fn area_end(b: &[u8], at: usize) -> usize
    requires { area_end b.now at ≤ length b.now }
    ensures { result ≡ area_end b.now at }
{
    at + AREA_SIZE + LONG_MORE * long_of(kind_at(b, at))
}

pub fn level_at(b: &[u8], at: usize) -> u8
    requires { at + area_size ≤ length b.now }
    ensures { result ≡ (area_fields b.now at).level }
{
    one_at(b, at + LEVEL)
}

pub fn parent_at(b: &[u8], at: usize) -> u8
    requires { at + area_size ≤ length b.now }
    ensures { result ≡ (area_fields b.now at).parent }
{
    one_at(b, at + PARENT)
}

pub fn surcharge_at(b: &[u8], at: usize) -> u8
    requires { at + area_size ≤ length b.now }
    ensures { result ≡ (area_fields b.now at).surcharge }
{
    one_at(b, at + SURCHARGE)
}

pub fn reduction_at(b: &[u8], at: usize) -> u8
    requires { at + area_size ≤ length b.now }
    ensures { result ≡ (area_fields b.now at).reduction }
{
    one_at(b, at + REDUCTION)
}

pub fn day_cap_at(b: &[u8], at: usize) -> u16
    requires { at + area_size ≤ length b.now }
    ensures { result ≡ (area_fields b.now at).day_cap }
{
    two_at(b, at + DAY_CAP)
}

pub fn flat_at(b: &[u8], at: usize) -> u16
    requires { at + area_size ≤ length b.now }
    ensures { result ≡ (area_fields b.now at).bicycle_flat }
{
    two_at(b, at + FLAT)
}

pub fn bicycle_price_at(b: &[u8], at: usize) -> u16
    requires { at + (area_size + long_more) ≤ length b.now }
    ensures { result ≡ (long_fields b.now at).bicycle_price }
{
    two_at(b, at + BICYCLE_PRICE)
}

pub fn town_at(b: &[u8], at: usize) -> u8
    requires { at + (area_size + long_more) ≤ length b.now }
    ensures { result ≡ (long_fields b.now at).town }
{
    one_at(b, at + TOWN)
}

pub fn area_fields(b: &[u8], at: usize) -> AreaFields
    requires { at + area_size ≤ length b.now }
    ensures { result ≡ area_fields b.now at }
{
    AreaFields {
        level: one_at(b, at + LEVEL),
        parent: one_at(b, at + PARENT),
        base_price: two_at(b, at + 6),
        price_per_km: two_at(b, at + 8),
        validity: two_at(b, at + 10),
        surcharge: one_at(b, at + SURCHARGE),
        reduction: one_at(b, at + REDUCTION),
        sort: one_at(b, at + 14),
        cap1: two_at(b, at + 15),
        cap2: two_at(b, at + 17),
        cap3: two_at(b, at + 19),
        cap4: two_at(b, at + 21),
        cap5: two_at(b, at + 23),
        day_cap: two_at(b, at + DAY_CAP),
        bicycle_flat: two_at(b, at + FLAT),
    }
}

pub fn long_fields(b: &[u8], at: usize) -> LongFields
    requires { at + (area_size + long_more) ≤ length b.now }
    ensures { result ≡ long_fields b.now at }
{
    LongFields {
        child1: two_at(b, at + 29),
        child2: two_at(b, at + 31),
        child3: two_at(b, at + 33),
        child4: two_at(b, at + 35),
        child5: two_at(b, at + 37),
        bicycle_price: two_at(b, at + BICYCLE_PRICE),
        town: one_at(b, at + TOWN),
    }
}

pub fn factor_fields(b: &[u8], at: usize) -> Factor
    requires { at + factor_size ≤ length b.now }
    ensures { result ≡ factor_fields b.now at }
{
    Factor {
        factor: one_at(b, at + 4),
        mark: one_at(b, at + 5),
    }
}

pub fn stop_fields(b: &[u8], at: usize) -> StopFields
    requires { at + stop_size ≤ length b.now }
    ensures { result ≡ stop_fields b.now at }
{
    StopFields {
        area: one_at(b, at + 4),
        x: four_at(b, at + 5),
        y: four_at(b, at + 9),
    }
}
