// A record's fields as plain bytes in a slice that the caller lends, the same for both kinds.
ghost use Rattle.std.specs.Prelude.{◌≡◌, ◌+◌, ◌*◌, ◌^◌, ◌≤◌, ◌<◌, length};
ghost use Rattle.std.proofs.lemmas.List.Edits.{sets};
ghost use Rattle.statement.specs.Record.{person_size, person_bytes};
ghost use Rattle.statement.specs.Clauses.{Wrote};
ghost use Rattle.reader.specs.Fields.{charges_of};
ghost use Rattle.reader.specs.Reading.{fields_for};
ghost use Rattle.reader.specs.Clauses.{ReadableAt};
ghost use Rattle.reader.specs.Filling.{kind_of, party_of, whose_bytes, ride_bytes, amount_bytes, filling_of, FilledIn};

use crate::charges::{BARE_KIND, amount_at, charges_of};
use crate::records::read_record;
use crate::{Amount, Head, Read, Whose};
use statement::KIND;
use statement::writing::write_person;
use trip::Party;
use wire::{put_four, put_one, put_two};

// What stands before the charges, and what each of them takes.
const FRONT: usize = 14;

const EACH: usize = 10;

const NO_ROOM: u8 = 12;

// What reading into a slice comes to: a refusal's number, 14 to 16 or 12; or the record's bytes.
#[derive(Clone, Copy)]
pub enum Filled {
    Refused(u8),
    Record(usize),
}

fn kind_of(whose: Whose) -> u16
    ensures { (result ≡ kind_of whose) × (result < 256) }
{
    match whose {
        Whose::Unsaid { charges: _ } => BARE_KIND,
        Whose::Of(_) => KIND,
    }
}

// Nobody is told in kind 4.
fn party_of(whose: Whose) -> Party
    ensures { result ≡ party_of whose }
{
    match whose {
        Whose::Unsaid { charges: _ } => Party {
            adults: 0,
            children: 0,
            bicycles: 0,
        },
        Whose::Of(party) => party,
    }
}

// The first five bytes: kind, number of charges, and the party.
fn put_whose(fields: &mut [u8], whose: Whose)
    requires { (5 ≤ length fields.old) × (charges_of whose ≤ 31) }
    ensures { fields.new ≡ sets fields.old 0 (whose_bytes whose) }
{
    let party = party_of(whose);
    put_one(fields, 0, kind_of(whose) as u8);
    put_one(fields, 1, charges_of(whose) as u8);
    put_one(fields, 2, party.adults);
    put_one(fields, 3, party.children);
    put_one(fields, 4, party.bicycles);
}

// The nine bytes behind them: the ride's area, kilometres and minutes, and the window's opening.
fn put_ride(fields: &mut [u8], head: Head)
    requires { (14 ≤ length fields.old) × ((head.km.0 < 2 ^ 16) × (head.minutes.0 < 2 ^ 16)) }
    ensures { fields.new ≡ sets fields.old 5 (ride_bytes head) }
{
    put_one(fields, 5, head.area);
    put_two(fields, 6, head.km.0 as u16);
    put_two(fields, 8, head.minutes.0 as u16);
    put_four(fields, 10, head.opening.0);
}

// One charge and its cut at a place. The answer is the place behind it.
fn put_amount(fields: &mut [u8], place: usize, amount: Amount) -> usize
    requires { place + person_size ≤ length fields.old }
    ensures { Wrote (person_bytes amount.charge.0 amount.cut) fields.old place fields.new result }
{
    let charge = amount.charge;
    let cut = amount.cut;
    write_person(fields, place, charge, cut)
}

// One charge behind another, from a place on. The answer is the place behind the last.
fn put_amounts(
    fields: &mut [u8],
    place: usize,
    statement: &[u8],
    at: usize,
    whose: Whose,
    count: usize,
) -> usize
    requires { ReadableAt statement.now at whose × ((count ≤ charges_of whose) × ((charges_of whose ≤ 31)
        × (place + person_size * count ≤ length fields.old))) }
    ensures { Wrote (amount_bytes (fields_for statement.now at whose) count) fields.old place fields.new result }
{
    let mut next = place;
    for i in 0..count {
        next = put_amount(fields, next, amount_at(statement, at, whose, i));
    }
    next
}

// The record at a place, with its fields at the start of the slice. A refusal writes nothing.
pub fn read_into(statement: &[u8], at: usize, fields: &mut [u8]) -> Filled
    ensures { FilledIn (filling_of statement.now at (length fields.old)) fields.old fields.new result }
{
    match read_record(statement, at) {
        Read::Refused(number) => Filled::Refused(number),
        Read::Record { size, head, whose } => {
            let count = charges_of(whose);
            if fields.len() < FRONT + EACH * count {
                return Filled::Refused(NO_ROOM);
            }
            put_whose(fields, whose);
            put_ride(fields, head);
            put_amounts(fields, FRONT, statement, at, whose, count);
            Filled::Record(size)
        }
    }
}
