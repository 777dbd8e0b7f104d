// A roll of trips, settled one record after another on one book, piece by piece: whoever reads the roll hands over what has come so far,
// and is told what stands at its start and how many bytes that took.
#![tactic(auto)]

ghost use Rattle.std.specs.Prelude.{◌≡◌};
ghost use Rattle.statement.specs.Clauses.{RecordAt};
ghost use Rattle.deciding.specs.Clauses.{Ready};
ghost use Rattle.roll.specs.Pieces.{unfinished};
ghost use Rattle.roll.specs.Clauses.{Fresh, StatementRoom, EntryIn, Readable, LineIn, SettledLine, Stepped};

use editions::Editions;
use ledger::words::SIZE;
use settle::{Answer, settle_next};
use statement::LARGEST_STATEMENT;
use statement::reading::{area_at, cents_at, km_at, minutes_at, opening_at, size_at};
use wire::{Frame, frame_at, two_at};

// At most so many records of a roll are settled.
pub const MOST_RECORDS: u32 = 65_535;

// The numbers of a part's charge record; the cents are all its charges.
#[derive(Clone, Copy)]
pub struct Entry {
    pub area: u8,
    pub km: u16,
    pub minutes: u16,
    pub opening: u32,
    pub cents: u64,
}

// What a line says of a record.
#[derive(Clone, Copy)]
pub enum Line {
    // accepted as one part
    Charged(Entry),
    // accepted in two parts, each with a line of its own
    Both(Entry, Entry),
    // the refusal
    Refused(u64),
}

// What stands at the start of a piece of a roll.
#[derive(Clone, Copy)]
pub enum Step {
    // nothing, and no more comes
    End,
    // a record that is not whole yet, and more can come
    More,
    // a whole record: its line, and its bytes
    Record { line: Line, used: usize },
    // a broken frame: refused with 5, and the run's end
    Broken,
}

// A fresh book, which is sound under every file.
pub fn fresh_book() -> [u8; SIZE]
    ensures { Fresh result }
{
    [0u8; SIZE]
}

// Room for a record's statement.
pub fn statement_room() -> [u8; LARGEST_STATEMENT]
    ensures { StatementRoom result }
{
    [0u8; LARGEST_STATEMENT]
}

// What the charge record at a place of a statement says.
fn entry_at(statement: &[u8], place: usize) -> Entry
    requires { RecordAt statement.now place }
    ensures { EntryIn statement.now place result }
{
    Entry {
        area: area_at(statement, place),
        km: km_at(statement, place),
        minutes: minutes_at(statement, place),
        opening: opening_at(statement, place),
        cents: cents_at(statement, place),
    }
}

// The line of a statement of so many bytes: there is a second record where they go on behind the first.
fn charged_line(statement: &[u8], size: usize) -> Line
    requires { Readable statement.now size }
    ensures { LineIn statement.now size result }
{
    let first = entry_at(statement, 0);
    let behind = size_at(statement, 0);
    if behind < size {
        return Line::Both(first, entry_at(statement, behind));
    }
    Line::Charged(first)
}

// A record settled: its line, and the book brought up to date. What was told of it stands in the statement that is lent: its charge records, in
// front of what stood there; of a refusal nothing is written.
fn settle_line(
    file: &[u8],
    editions: Editions,
    book: &mut [u8],
    trip: &[u8],
    statement: &mut [u8],
) -> Line
    requires { Ready file.now editions book.old × StatementRoom statement.old }
    ensures { SettledLine file.now editions book.old trip.now statement.old book.new
        statement.new result }
{
    match settle_next(file, editions, book, trip, statement) {
        Answer::Refused { number, place: _ } => Line::Refused(number as u64),
        Answer::Written(size) => charged_line(statement, size),
    }
}

// Whether a piece ends before its first record does: more bytes would tell.
fn is_unfinished(piece: &[u8]) -> bool
    ensures { result ≡ unfinished piece.now }
{
    if piece.len() < 4 {
        return true;
    }
    let long = two_at(piece, 0) as usize;
    (2 <= long) & (long <= 1024) & (piece.len() < 2 + long)
}

// What stands at the start of a piece, and what it comes to on the book; `more` says whether the roll can go on behind the piece. The statement
// is lent for a record's: whoever wants more than its line, as each person's charge, reads it there.
pub fn next(
    file: &[u8],
    editions: Editions,
    book: &mut [u8],
    piece: &[u8],
    more: bool,
    statement: &mut [u8],
) -> Step
    requires { Ready file.now editions book.old × StatementRoom statement.old }
    ensures { Stepped file.now editions book.old piece.now more statement.old book.new
        statement.new result }
{
    if more & is_unfinished(piece) {
        return Step::More;
    }
    if piece.len() == 0 {
        return Step::End;
    }
    match frame_at(piece, 0) {
        Frame::Broken => Step::Broken,
        Frame::Whole { kind: _, body } => {
            let used = 4 + body;
            Step::Record {
                line: settle_line(file, editions, book, &piece[..used], statement),
                used,
            }
        }
    }
}
