// A trip record out of any byte string: for each of the refusals 5 to 9, and 17, a test of its own, in the order in which they are given.
// The stops stay in the trip's bytes, where `stop_number` finds them. The file one_date.rt has a fast way to the times of a trip on one date.
#![tactic(auto)]

ghost use Rattle.std.specs.Prelude.{◌≡◌, ◌+◌, ◌≤◌, length};
ghost use Rattle.calendar.specs.Stamps.{last_minute};
ghost use Rattle.trip.specs.Record.{trip_size, shape_at, class_at, level_at, party_at};
ghost use Rattle.trip.specs.Moments.{moment_at};
ghost use Rattle.trip.specs.Trips.{party_right, stops_known, in_order, one_stop, is_mistap};
ghost use Rattle.trip.specs.Clauses.{whole_trip, made_at, times_of, StopNumber};

use calendar::{Made, Stamp};
use one_date::{is_one_date, times_on_date};
use units::levels::is_level;
use units::{DAY, Km, Minutes};
use wire::{Frame, frame_at, one_at, two_at};

mod one_date;

pub const KIND: u16 = 7;

// The record up to its stops: length and kind, two stamps, class, level, adults, children, bicycles and n.
pub const FIXED: usize = 24;

const BODY: usize = FIXED - 4;

pub const CHECK_IN: usize = 4;

const CHECK_OUT: usize = CHECK_IN + Stamp::SIZE;

const CLASS: usize = CHECK_OUT + Stamp::SIZE;

const LEVEL: usize = CLASS + 1;

const PARTY: usize = LEVEL + 1;

const COUNT: usize = PARTY + 3;

// From so many minutes on, a trip from a stop to itself is none that was tapped by mistake.
const MISTAP_END: u32 = 3;

// Those whom the account holder carries.
#[derive(Clone, Copy)]
pub struct Party {
    pub adults: u8,
    pub children: u8,
    pub bicycles: u8,
}

// A trip that meets none of 5 to 9. Class and level are the account holder's and all those carried.
#[derive(Clone, Copy)]
pub struct Trip {
    pub checkin: Minutes,
    pub checkout: Minutes,
    pub class: u8,
    pub level: u8,
    pub party: Party,
    pub stops: usize,
}

// What is priced: in which area, how far, how long, in which class, with which ticket level, and for whom.
#[derive(Clone, Copy)]
pub struct Ride {
    pub area: usize,
    pub km: Km,
    pub minutes: Minutes,
    pub class: u8,
    pub level: u8,
    pub party: Party,
}

// What goes before a ride in its trip without being in the book yet: nothing, or a part of the trip, of the same class and party.
#[derive(Clone, Copy)]
pub enum Earlier {
    Nothing,
    Part(Ride),
}

// A trip record, with its number of stops, or none.
#[derive(Clone, Copy)]
pub enum Shape {
    Stops(usize),
    NoTrip,
}

// The minute that a stamp stands for, or none.
#[derive(Clone, Copy)]
pub enum Moment {
    At(Minutes),
    NoMoment,
}

// Check-in and check-out, or none where one of the stamps is wrong.
#[derive(Clone, Copy)]
pub enum Times {
    Of(Minutes, Minutes),
    NoTimes,
}

// A whole frame of the trip's kind at a place, whose body fits its number of stops.
pub fn shape_at(b: &[u8], at: usize) -> Shape
    ensures { result ≡ shape_at b.now at }
{
    match frame_at(b, at) {
        Frame::Broken => Shape::NoTrip,
        Frame::Whole { kind, body } => {
            if (kind != KIND) | (body < BODY) {
                return Shape::NoTrip;
            }
            let stops = one_at(b, at + COUNT) as usize;
            if body == BODY + 2 * stops {
                Shape::Stops(stops)
            } else {
                Shape::NoTrip
            }
        }
    }
}

// 5: a trip record that fills the slice.
pub fn whole_trip(trip: &[u8]) -> Shape
    ensures { result ≡ whole_trip trip.now }
{
    let Shape::Stops(stops) = shape_at(trip, 0) else {
        return Shape::NoTrip;
    };
    if FIXED + 2 * stops == trip.len() {
        Shape::Stops(stops)
    } else {
        Shape::NoTrip
    }
}

pub fn class_at(b: &[u8], at: usize) -> u8
    requires { at + trip_size 0 ≤ length b.now }
    ensures { result ≡ class_at b.now at }
{
    one_at(b, at + CLASS)
}

pub fn level_at(b: &[u8], at: usize) -> u8
    requires { at + trip_size 0 ≤ length b.now }
    ensures { result ≡ level_at b.now at }
{
    one_at(b, at + LEVEL)
}

pub fn party_at(b: &[u8], at: usize) -> Party
    requires { at + trip_size 0 ≤ length b.now }
    ensures { result ≡ party_at b.now at }
{
    let from = at + PARTY;
    Party {
        adults: one_at(b, from),
        children: one_at(b, from + 1),
        bicycles: one_at(b, from + 2),
    }
}

// 6: the ranges of class, level, those carried and the number of stops.
pub fn party_right(class: u8, level: u8, party: Party, stops: usize) -> bool
    ensures { result ≡ party_right class level party stops }
{
    ((class == 1) | (class == 2))
        & is_level(level)
        & (party.adults <= 10)
        & (party.children <= 10)
        & (party.bicycles <= 10)
        & (2 <= stops)
        & (stops <= 32)
}

// The number of a trip's stop, counted from 0.
pub fn stop_number(trip: &[u8], i: usize) -> usize
    requires { trip_size (i + 1) ≤ length trip.now }
    ensures { StopNumber trip.now i result }
{
    two_at(trip, FIXED + 2 * i) as usize
}

// 7: whether the tariff, which has `known` stops, has each of the trip's.
pub fn stops_known(trip: &[u8], stops: usize, known: usize) -> bool
    requires { trip_size stops ≤ length trip.now }
    ensures { result ≡ stops_known trip.now stops known }
{
    let mut all = true;
    for i in 0..stops {
        all = all & (stop_number(trip, i) < known);
    }
    all
}

// What the calendar makes of the fields of a stamp at a place, its offset with them.
fn stamp_at(b: &[u8], at: usize) -> Made
    requires { at + 7 ≤ length b.now }
    ensures { result ≡ made_at b.now at }
{
    Stamp::make(
        two_at(b, at),
        one_at(b, at + 2),
        one_at(b, at + 3),
        one_at(b, at + 4),
        one_at(b, at + 5),
        one_at(b, at + 6),
    )
}

// The moment whose stamp stands at a place.
pub fn moment_at(b: &[u8], at: usize) -> Moment
    requires { at + 7 ≤ length b.now }
    ensures { result ≡ moment_at b.now at }
{
    // Borrowed anew, a slice comes in registers; else each caller keeps a copy of it on the stack for us.
    let b = &*b;
    match stamp_at(b, at) {
        Made::Good(stamp) => Moment::At(stamp.minutes()),
        Made::Refused => Moment::NoMoment,
    }
}

// 8: check-in and check-out, where both stamps are right.
pub fn times_of(trip: &[u8]) -> Times
    requires { trip_size 0 ≤ length trip.now }
    ensures { result ≡ times_of trip.now }
{
    if is_one_date(trip) {
        return times_on_date(trip);
    }
    let Moment::At(checkin) = moment_at(trip, CHECK_IN) else {
        return Times::NoTimes;
    };
    let Moment::At(checkout) = moment_at(trip, CHECK_OUT) else {
        return Times::NoTimes;
    };
    Times::Of(checkin, checkout)
}

// 9: check-out not before check-in, and at most a day after it.
pub fn in_order(checkin: Minutes, checkout: Minutes) -> bool
    requires { checkin.0 ≤ last_minute }
    ensures { result ≡ in_order checkin.0 checkout.0 }
{
    (checkin.0 <= checkout.0) & (checkout.0 <= checkin.0 + DAY)
}

// Whether all of the trip's stops are one, by its number.
fn one_stop(trip: &[u8], stops: usize) -> bool
    requires { trip_size stops ≤ length trip.now }
    ensures { result ≡ one_stop trip.now stops }
{
    let mut one = true;
    for i in 0..stops {
        one = one & (stop_number(trip, i) == stop_number(trip, 0));
    }
    one
}

// 17: a trip from one stop to itself in under 3 minutes. Its stops are looked at only where it is as short as that.
pub fn is_mistap(trip: &[u8], stops: usize, checkin: Minutes, checkout: Minutes) -> bool
    requires { (trip_size stops ≤ length trip.now) × (checkin.0 ≤ checkout.0) }
    ensures { result ≡ is_mistap trip.now stops checkin.0 checkout.0 }
{
    if MISTAP_END <= checkout.0 - checkin.0 {
        return false;
    }
    one_stop(trip, stops)
}
