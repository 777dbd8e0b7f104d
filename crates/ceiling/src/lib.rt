// A monthly ceiling over settling: a trip is settled as without it, and of its charges so much is due as the month of its check-in has left. What
// was collected is kept beside the book, as 8 bytes: a month, and the amount collected in it.
//
// Decide first, write last: a refusal changes no byte of what is kept, of book, of statement or of what is due.
#![tactic(auto)]

ghost use Rattle.std.specs.Prelude.{◌≡◌, ◌≤◌, length};
ghost use Rattle.calendar.specs.Stamps.{last_minute};
ghost use Rattle.trip.specs.Moments.{checkin_of};
ghost use Rattle.editions.specs.Reading.{ReadFile};
ghost use Rattle.ceiling.specs.Ceiling.{uncollectable, due_of, due_size};
ghost use Rattle.ceiling.specs.Clauses.{
  Collectable,
  Stamped,
  MonthIs,
  AmountIs,
  RoomIs,
  Collected,
  WithinSettled,
  TripInMonth,
};

use calendar::Stamp;
use calendar::moments::moment_of;
use editions::{Editions, FileReading, read_file};
use settle::{Answer, settle_under};
use statement::reading::cents_in;
use trip::{CHECK_IN, Moment, moment_at};
use wire::{four_at, put_four};

// A ceiling and an amount kept are at most so many cents.
const MOST: u32 = 1_000_000;

const KEPT_SIZE: usize = 8;

const DUE_SIZE: usize = 4;

// The ceiling or the amount kept above the most, or what is kept not of its size.
const WRONG_CEILING: u8 = 24;

// Whether the call is refused with 24.
fn is_uncollectable(ceiling: u32, kept: &[u8]) -> bool
    ensures { result ≡ uncollectable ceiling kept.now }
{
    if kept.len() != KEPT_SIZE {
        return true;
    }
    (MOST < ceiling) | (MOST < four_at(kept, 4))
}

// The month of a minute of UTC, in months since January 2000.
fn month_at(minute: u32) -> u32
    requires { minute ≤ last_minute }
    ensures { MonthIs minute result }
{
    let moment = moment_of(minute);
    12 * (moment.year - Stamp::FIRST_YEAR) as u32 + (moment.month - 1) as u32
}

// A trip's month: that of its check-in, which a trip that is accepted has. Not by `times_of`: with a second caller that would be a frame of its own,
// on settling's way too.
fn month_of(trip: &[u8]) -> u32
    requires { Stamped trip.now }
    ensures { MonthIs (checkin_of trip.now) result }
{
    let Moment::At(minute) = moment_at(trip, CHECK_IN) else {
        return 0;
    };
    month_at(minute.0)
}

// What was collected in a month. Any other month than the kept one, an earlier one too, starts at 0.
fn collected_in(kept: &[u8], month: u32) -> u32
    requires { Collectable 0 kept.now }
    ensures { AmountIs kept.now month result }
{
    if four_at(kept, 0) == month {
        four_at(kept, 4)
    } else {
        0
    }
}

// Charges cut to what the ceiling leaves.
fn due_of(ceiling: u32, before: u32, charged: u64) -> u32
    ensures { result ≡ due_of ceiling before charged }
{
    if ceiling <= before {
        return 0;
    }
    let left = ceiling - before;
    if charged < left as u64 {
        charged as u32
    } else {
        left
    }
}

// The charges of a trip of a month collected: what is due of them, and the new pair.
fn collect(ceiling: u32, kept: &mut [u8], month: u32, charged: u64, due: &mut [u8])
    requires { Collectable ceiling kept.old × (due_size ≤ length due.old) }
    ensures { Collected ceiling kept.old month charged due.old kept.new due.new }
{
    let before = collected_in(kept, month);
    let collects = due_of(ceiling, before, charged);
    put_four(kept, 0, month);
    put_four(kept, 4, before + collects);
    put_four(due, 0, collects);
}

// The room for the records: none where what is due has no room, so that the trip is refused for want of room where nothing else refuses it.
fn room_for(room: usize, due: usize) -> usize
    ensures { RoomIs room due result }
{
    if due < DUE_SIZE {
        return 0;
    }
    room
}

// Under a faultless file, with a ceiling and a pair that are not refused: 4 to 12, or the charges, read off the records, are collected.
fn settle_within(
    ceiling: u32,
    kept: &mut [u8],
    file: &[u8],
    editions: Editions,
    book: &mut [u8],
    trip: &[u8],
    statement: &mut [u8],
    due: &mut [u8],
) -> Answer
    requires { Collectable ceiling kept.old × ReadFile file.now editions }
    ensures { WithinSettled ceiling kept.old file.now editions book.old trip.now
        statement.old due.old kept.new book.new statement.new due.new result }
{
    let room = room_for(statement.len(), due.len());
    match settle_under(file, editions, book, trip, &mut statement[..room]) {
        Answer::Refused { number, place } => Answer::Refused { number, place },
        Answer::Written(size) => {
            let month = month_of(trip);
            let charged = cents_in(statement, size);
            collect(ceiling, kept, month, charged, due);
            Answer::Written(size)
        }
    }
}

// Settles a trip under a monthly ceiling: 24, and then as `settle` does; 12 also where `due` has fewer than 4 bytes. What is due goes to the start
// of `due`, and the month with the amount collected in it to `kept`.
pub fn settle_month(
    ceiling: u32,
    kept: &mut [u8],
    file: &[u8],
    book: &mut [u8],
    trip: &[u8],
    statement: &mut [u8],
    due: &mut [u8],
) -> Answer
    ensures { TripInMonth ceiling kept.old file.now book.old trip.now statement.old
        due.old kept.new book.new statement.new due.new result }
{
    if is_uncollectable(ceiling, kept) {
        return Answer::Refused {
            number: WRONG_CEILING,
            place: 0,
        };
    }
    match read_file(file) {
        FileReading::Fault { number, at } => Answer::Refused { number, place: at },
        FileReading::Faultless(editions) => settle_within(
            ceiling, kept, file, editions, book, trip, statement, due,
        ),
    }
}
