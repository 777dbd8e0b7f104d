// A part's record at a place of the lent statement, put there field by field.
ghost use Rattle.std.specs.Prelude.{◌+◌, ◌≤◌, length};
ghost use Rattle.wire.specs.Number.{bytes_of};
ghost use Rattle.statement.specs.Record.{head_size, charge_size, person_size, head_bytes, head_of, person_bytes, RideFits};
ghost use Rattle.statement.specs.Clauses.{cut_with, Wrote};

use crate::{KIND, record_size};
use caps::Cut;
use trip::Ride;
use units::{Cents, Minutes};
use wire::{put_four, put_one, put_two};

// The fields of a head one after another; `long` is the record's length field.
fn put_head(
    statement: &mut [u8],
    place: usize,
    long: u16,
    opening: u32,
    area: u8,
    km: u16,
    minutes: u16,
    adults: u8,
    children: u8,
    bicycles: u8,
) -> usize
    requires { place + head_size ≤ length statement.old }
    ensures { Wrote (head_bytes long opening area km minutes adults children bicycles) statement.old place statement.new result }
{
    put_two(statement, place, long);
    put_two(statement, place + 2, KIND);
    put_four(statement, place + 4, opening);
    put_one(statement, place + 8, area);
    put_two(statement, place + 9, km);
    put_two(statement, place + 11, minutes);
    put_one(statement, place + 13, adults);
    put_one(statement, place + 14, children);
    put_one(statement, place + 15, bicycles);
    place + 16
}

// The head of a ride's record; the party says how long the record is. The answer is the place of the first charge.
pub fn write_ride(statement: &mut [u8], place: usize, opening: Minutes, ride: Ride) -> usize
    requires { (place + head_size ≤ length statement.old) × RideFits ride }
    ensures { Wrote (head_of opening.0 ride) statement.old place statement.new result }
{
    let area = ride.area;
    let km = ride.km;
    let minutes = ride.minutes;
    let party = ride.party;
    let long = record_size(party) - 2;
    put_head(
        statement,
        place,
        long as u16,
        opening.0,
        area as u8,
        km.0 as u16,
        minutes.0 as u16,
        party.adults,
        party.children,
        party.bicycles,
    )
}

fn put_person(
    statement: &mut [u8],
    place: usize,
    amount: u32,
    reduction: u32,
    area: u8,
    class: u8,
) -> usize
    requires { place + person_size ≤ length statement.old }
    ensures { Wrote (person_bytes amount (cut_with reduction area class)) statement.old place statement.new result }
{
    put_four(statement, place, amount);
    put_four(statement, place + 4, reduction);
    put_one(statement, place + 8, area);
    put_one(statement, place + 9, class);
    place + 10
}

// One person's charge, and what caps took off the price. The answer is the place of the next.
pub fn write_person(statement: &mut [u8], place: usize, amount: Cents, cut: Cut) -> usize
    requires { place + person_size ≤ length statement.old }
    ensures { Wrote (person_bytes amount.0 cut) statement.old place statement.new result }
{
    let reduction = cut.reduction;
    put_person(statement, place, amount.0, reduction.0, cut.area, cut.class)
}

fn put_charge(statement: &mut [u8], place: usize, amount: u32) -> usize
    requires { place + charge_size ≤ length statement.old }
    ensures { Wrote (bytes_of 4 amount) statement.old place statement.new result }
{
    put_four(statement, place, amount);
    place + 4
}

// One bicycle's charge. The answer is the place of the next.
pub fn write_charge(statement: &mut [u8], place: usize, amount: Cents) -> usize
    requires { place + charge_size ≤ length statement.old }
    ensures { Wrote (bytes_of 4 amount.0) statement.old place statement.new result }
{
    put_charge(statement, place, amount.0)
}
