// One record at a place of a statement.
ghost use Rattle.std.specs.Prelude.{◌≡◌, ◌+◌, ◌≤◌, length};
ghost use Rattle.statement.specs.Record.{head_size};
ghost use Rattle.statement.specs.Reading.{size_in};
ghost use Rattle.reader.specs.Ranges.{head_right};
ghost use Rattle.reader.specs.Reading.{head_at, fields_for, ranged, read_at};
ghost use Rattle.reader.specs.Clauses.{FittedAt, read_as};

use crate::charges::{Fit, LAST_AREA, amounts_right, charges_of, whose_at, whose_right};
use crate::{Head, Read, Whose};
use calendar::Stamp;
use statement::reading::{area_at, km_at, minutes_at, opening_at};
use units::{DAY, Km, Minutes};
use wire::{Frame, frame_at};

const BROKEN_FRAME: u8 = 14;

const OTHER_RECORD: u8 = 15;

const OUT_OF_RANGE: u8 = 16;

// As far as two stops can be apart.
const MOST_KM: u32 = 1_415;

fn head_at(statement: &[u8], at: usize) -> Head
    requires { at + head_size ≤ length statement.now }
    ensures { result ≡ head_at statement.now at }
{
    Head {
        opening: Minutes(opening_at(statement, at)),
        area: area_at(statement, at),
        km: Km(km_at(statement, at) as u32),
        minutes: Minutes(minutes_at(statement, at) as u32),
    }
}

fn head_right(head: Head) -> bool
    ensures { result ≡ head_right head }
{
    (head.opening.0 <= Stamp::LAST_MINUTE)
        & (head.area <= LAST_AREA)
        & (head.km.0 <= MOST_KM)
        & (head.minutes.0 <= DAY)
}

// Of a record whose kind and length fit: 16, or the record. Its charges are read only where the party is one that a trip can have.
fn in_range(statement: &[u8], at: usize, size: usize, whose: Whose) -> Read
    requires { FittedAt statement.now at whose }
    ensures { result ≡ read_as (ranged (fields_for statement.now at whose) size) }
{
    let head = head_at(statement, at);
    if !(head_right(head) & whose_right(whose)) {
        return Read::Refused(OUT_OF_RANGE);
    }
    if !amounts_right(statement, at, whose, charges_of(whose)) {
        return Read::Refused(OUT_OF_RANGE);
    }
    Read::Record { size, head, whose }
}

// The record at a place, of any byte string and at any place; what stands behind it is left alone.
pub fn read_record(statement: &[u8], at: usize) -> Read
    ensures { result ≡ read_as (read_at statement.now at) }
{
    match frame_at(statement, at) {
        Frame::Broken => Read::Refused(BROKEN_FRAME),
        Frame::Whole { kind, body } => {
            match whose_at(statement, at, kind, body) {
                Fit::Unfit => Read::Refused(OTHER_RECORD),
                Fit::Fits(whose) => in_range(statement, at, 4 + body, whose),
            }
        }
    }
}
