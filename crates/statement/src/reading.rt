// A charge record read off a statement, at the place where it stands.
ghost use Rattle.std.specs.Prelude.{◌≡◌, ◌+◌, ◌*◌, ◌≤◌, ◌<◌, min, length};
ghost use Rattle.statement.specs.Record.{head_size, most_charges, largest_size, most_parts};
ghost use Rattle.statement.specs.Reading.{
  opening_in,
  area_in,
  km_in,
  minutes_in,
  adults_in,
  children_in,
  bicycles_in,
  size_in,
  persons_in,
  count_in,
  cap_area_in,
  cap_class_in,
};
ghost use Rattle.statement.specs.Clauses.{RecordAt, PersonsIs, ChargeIs, ReductionIs, CentsUpTo, CentsOf, RecordsTo, CentsOver};

use crate::{CHARGE, CUT, HEAD};
use wire::{four_at, one_at, two_at};

// The window's opening minute.
pub fn opening_at(statement: &[u8], place: usize) -> u32
    requires { place + head_size ≤ length statement.now }
    ensures { result ≡ opening_in statement.now place }
{
    four_at(statement, place + 4)
}

pub fn area_at(statement: &[u8], place: usize) -> u8
    requires { place + head_size ≤ length statement.now }
    ensures { result ≡ area_in statement.now place }
{
    one_at(statement, place + 8)
}

pub fn km_at(statement: &[u8], place: usize) -> u16
    requires { place + head_size ≤ length statement.now }
    ensures { result ≡ km_in statement.now place }
{
    two_at(statement, place + 9)
}

pub fn minutes_at(statement: &[u8], place: usize) -> u16
    requires { place + head_size ≤ length statement.now }
    ensures { result ≡ minutes_in statement.now place }
{
    two_at(statement, place + 11)
}

pub fn adults_at(statement: &[u8], place: usize) -> u8
    requires { place + head_size ≤ length statement.now }
    ensures { result ≡ adults_in statement.now place }
{
    one_at(statement, place + 13)
}

pub fn children_at(statement: &[u8], place: usize) -> u8
    requires { place + head_size ≤ length statement.now }
    ensures { result ≡ children_in statement.now place }
{
    one_at(statement, place + 14)
}

pub fn bicycles_at(statement: &[u8], place: usize) -> u8
    requires { place + head_size ≤ length statement.now }
    ensures { result ≡ bicycles_in statement.now place }
{
    one_at(statement, place + 15)
}

// The record's bytes: the next record stands so far behind it.
pub fn size_at(statement: &[u8], place: usize) -> usize
    requires { RecordAt statement.now place }
    ensures { (result ≡ size_in statement.now place) × (result ≤ largest_size) }
{
    2 + two_at(statement, place) as usize
}

// How many persons the record has: account holder, adults, children.
pub fn persons_at(statement: &[u8], place: usize) -> usize
    requires { RecordAt statement.now place }
    ensures { PersonsIs statement.now place result }
{
    1 + adults_at(statement, place) as usize + children_at(statement, place) as usize
}

// How many charges the record has.
pub fn count_at(statement: &[u8], place: usize) -> usize
    requires { RecordAt statement.now place }
    ensures { (result ≡ count_in statement.now place) × (result ≤ most_charges) }
{
    persons_at(statement, place) + bicycles_at(statement, place) as usize
}

fn smaller(a: usize, b: usize) -> usize
    ensures { result ≡ min a b }
{
    if a < b { a } else { b }
}

// Charge i, counted from 0, of a record of so many persons: the cuts of the persons before it stand before it too.
fn charge_of(statement: &[u8], place: usize, persons: usize, i: usize) -> u32
    requires { RecordAt statement.now place × ((persons ≡ persons_in statement.now place) × (i < count_in statement.now place)) }
    ensures { ChargeIs statement.now place i result }
{
    four_at(
        statement,
        place + HEAD + CHARGE * i + CUT * smaller(i, persons),
    )
}

// Charge i, counted from 0: account holder, adults, children, bicycles.
pub fn charge_at(statement: &[u8], place: usize, i: usize) -> u32
    requires { RecordAt statement.now place × (i < count_in statement.now place) }
    ensures { ChargeIs statement.now place i result }
{
    charge_of(statement, place, persons_at(statement, place), i)
}

// What caps took off person i's price.
pub fn reduction_at(statement: &[u8], place: usize, i: usize) -> u32
    requires { RecordAt statement.now place × (i < persons_in statement.now place) }
    ensures { ReductionIs statement.now place i result }
{
    four_at(statement, place + HEAD + (CHARGE + CUT) * i + CHARGE)
}

// The area of the cap that is named for it, `NO_AREA` where nothing was taken off.
pub fn cap_area_at(statement: &[u8], place: usize, i: usize) -> u8
    requires { RecordAt statement.now place × (i < persons_in statement.now place) }
    ensures { result ≡ cap_area_in statement.now place i }
{
    one_at(statement, place + HEAD + (CHARGE + CUT) * i + CHARGE + 4)
}

// That cap's class: 2 second class, 1 all classes, `NO_CLASS` where nothing was taken off.
pub fn cap_class_at(statement: &[u8], place: usize, i: usize) -> u8
    requires { RecordAt statement.now place × (i < persons_in statement.now place) }
    ensures { result ≡ cap_class_in statement.now place i }
{
    one_at(statement, place + HEAD + (CHARGE + CUT) * i + CHARGE + 5)
}

// The first `count` charges of a record of so many persons, added up.
fn cents_up_to(statement: &[u8], place: usize, persons: usize, count: usize) -> u64
    requires { RecordAt statement.now place × ((persons ≡ persons_in statement.now place) × (count ≤ count_in statement.now place)) }
    ensures { CentsUpTo statement.now place count result }
{
    let mut cents: u64 = 0;
    for i in 0..count {
        cents = cents + charge_of(statement, place, persons, i) as u64;
    }
    cents
}

// All charges of the record, added up. What caps took off is no part of them.
pub fn cents_at(statement: &[u8], place: usize) -> u64
    requires { RecordAt statement.now place }
    ensures { CentsOf statement.now place result }
{
    let persons = persons_at(statement, place);
    cents_up_to(statement, place, persons, count_at(statement, place))
}

// All charges of a statement of one or two records, which are its first `size` bytes, added up.
pub fn cents_in(statement: &[u8], size: usize) -> u64
    requires { RecordsTo statement.now size most_parts 0 }
    ensures { CentsOver statement.now size result }
{
    let mut cents: u64 = 0;
    let mut next: usize = 0;
    while next < size {
        cents = cents + cents_at(statement, next);
        next = next + size_at(statement, next);
    }
    cents
}
