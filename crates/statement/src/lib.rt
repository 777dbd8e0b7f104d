// The charge record: where each of its fields stands, and nobody else knows. A statement is charge records one after another, each written
// and read at its place.
//
// writing.rt   a part's record, put there field by field
// reading.rt   the fields of a record, and what its charges add up to
#![tactic(auto)]

ghost use Rattle.std.specs.Prelude.{◌≡◌};
ghost use Rattle.statement.specs.Record.{record_size};

use trip::Party;

pub mod reading;
pub mod writing;

pub const KIND: u16 = 6;

// Length, kind, opening minute, area, kilometres, minutes and the party's three numbers, which stand before the charges.
pub const HEAD: usize = 16;

pub const CHARGE: usize = 4;

// What caps took off a person's price, and the named cap's area and class, which stand behind the person's charge.
pub const CUT: usize = 6;

// The account holder, ten adults, ten children.
pub const MOST_PERSONS: usize = 21;

const MOST_BICYCLES: usize = 10;

// The most charges that a record has: account holder, ten adults, ten children, ten bicycles.
pub const MOST_CHARGES: usize = MOST_PERSONS + MOST_BICYCLES;

// The record of the largest party.
pub const LARGEST: usize = HEAD + (CHARGE + CUT) * MOST_PERSONS + CHARGE * MOST_BICYCLES;

// The statement of the largest party on a trip that was broken into two parts.
pub const LARGEST_STATEMENT: usize = 2 * LARGEST;

// The bytes of a party's record: the head, a charge and a cut for each person, and a charge for each bicycle.
pub fn record_size(party: Party) -> usize
    ensures { result ≡ record_size party }
{
    HEAD + (CHARGE + CUT) * (1 + party.adults as usize + party.children as usize)
        + CHARGE * party.bicycles as usize
}
