// The tariff: area records, then factor records, then stop records, in one byte string that stays where the caller lent it. What it is made of:
// how long a record is, where its fields stand, which values it may have, and what a faultless tariff is. No other crate but `scan`, which
// goes from record to record, knows how long one is.
//
// fields.rt  where a record's fields stand, and the fields of a record at a place
// rules.rt   which values a record may have
// starts.rt  where a record starts, by its number
#![tactic(auto)]

use units::{Cap, Cents, Metres, Minutes};

pub mod fields;
pub mod rules;
pub mod starts;

// The sort of trip cap that an area has: none, flat up to some minutes, or by ticket level.
#[derive(Clone, Copy)]
pub enum TripCap {
    NoCap,
    Flat(Cents, Minutes),
    ByLevel(Cents, Cents, Cents, Cents, Cents),
}

// What a ride inside a town is priced without: nothing, the base price, or the price per km.
#[derive(Clone, Copy)]
pub enum Town {
    Unmarked,
    BaseDropped,
    KmDropped,
}

// The kind of an area, by its record. The Aachen kind has child tickets of the trip cap's sort, a bicycle price per trip and a town mark.
#[derive(Clone, Copy)]
pub enum Kind {
    Common,
    Aachen {
        child_ticket: TripCap,
        bicycle_price: Cents,
        town: Town,
    },
}

// In an area of the Aachen kind the bicycle flat is the bicycle's cap per window.
#[derive(Clone, Copy)]
pub struct Area {
    pub level: u8,
    pub parent: u8,
    pub base_price: Cents,
    pub price_per_km: Cents,
    pub validity: Minutes,
    pub surcharge: u8,
    pub reduction: u8,
    pub trip_cap: TripCap,
    pub day_cap: Cap,
    pub bicycle_flat: Cents,
    pub kind: Kind,
}

// What an area's caps are made of: its day cap, the surcharge of first class and a child's reduction.
#[derive(Clone, Copy)]
pub struct Limits {
    pub day_cap: Cap,
    pub surcharge: u8,
    pub reduction: u8,
}

// When a trip is broken in two: its factor, and whether trips wholly inside one city are left whole (mark 1).
#[derive(Clone, Copy)]
pub struct Factor {
    pub factor: u8,
    pub mark: u8,
}

#[derive(Clone, Copy)]
pub struct Stop {
    pub area: u8,
    pub x: Metres,
    pub y: Metres,
}

// How many areas, factor records and stops a faultless tariff has; bit i of `longs` says that area i has the longer record, kind 8.
#[derive(Clone, Copy)]
pub struct Counts {
    pub areas: u8,
    pub factors: u8,
    pub stops: u16,
    pub longs: u32,
}

// What stands at a place of the tariff: its end, a faultless area of some kind, factor record or stop, or a record with a fault (1, 2 or 3).
#[derive(Clone, Copy)]
pub enum Entry {
    End,
    Area(u16),
    Factor,
    Stop,
    Faulty(u8),
}

// What reading a tariff comes to: the first faulty record's refusal and offset, or the counts.
#[derive(Clone, Copy)]
pub enum Reading {
    Fault { number: u8, at: usize },
    Faultless(Counts),
}
