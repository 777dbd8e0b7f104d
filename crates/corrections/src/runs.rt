// A roll settled afresh, record by record, with one of its records exchanged: its sums and the bytes of its statements, or the statements written.
ghost use Rattle.std.specs.Prelude.{◌≡◌, ◌+◌, ◌-◌, ◌≤◌, length};
ghost use Rattle.ledger.specs.Words.{book_size, fresh_book};
ghost use Rattle.editions.specs.Reading.{ReadFile};
ghost use Rattle.corrections.specs.Corrections.{settled_with, statements_in};
ghost use Rattle.corrections.specs.Clauses.{
  AtMost,
  StatementFits,
  TripSized,
  start_at,
  behind_at,
  rest_of,
  NextFits,
  TurnTaken,
  AddedUp,
  StatementsWritten,
};

use crate::payers::{PAYERS, add_statement};
use editions::Editions;
use ledger::words::SIZE;
use roll::MOST_RECORDS;
use settle::{Answer, settle_under};
use statement::LARGEST_STATEMENT;
use wire::{Frame, HEAD, frame_at};

// How far a run over a roll has come: where the next record stands, how many more are settled at most, and how many there are up to the one that is
// exchanged, that one included; 0 where none is.
#[derive(Clone, Copy)]
pub struct Cursor {
    pub next: usize,
    pub left: u32,
    pub until: u32,
}

// What a turn comes to: the roll's end, or a record settled, whose statement has so many bytes; that of a refused one has none.
#[derive(Clone, Copy)]
pub enum Turn {
    End,
    Settled { size: usize, cursor: Cursor },
}

// A run's start.
fn start(n: u32) -> Cursor
    ensures { result ≡ start_at n }
{
    Cursor {
        next: 0,
        left: MOST_RECORDS,
        until: n,
    }
}

// One less, and 0 for 0.
fn one_less(n: u32) -> u32
    ensures { result ≡ n - 1 }
{
    if n == 0 {
        return 0;
    }
    n - 1
}

// Behind a record that ends at a place.
fn behind(cursor: Cursor, end: usize) -> Cursor
    requires { 1 ≤ cursor.left }
    ensures { result ≡ behind_at cursor end }
{
    Cursor {
        next: end,
        left: cursor.left - 1,
        until: one_less(cursor.until),
    }
}

// A book back to a fresh one.
fn clear(book: &mut [u8])
    requires { length book.old ≡ book_size }
    ensures { book.new ≡ fresh_book }
{
    for i in 0..SIZE {
        book[i] = 0;
    }
}

// A trip settled, whose statement has its room: how many bytes that is. Of a refused trip it is none.
fn settle_sized(
    file: &[u8],
    editions: Editions,
    book: &mut [u8],
    trip: &[u8],
    statement: &mut [u8],
) -> usize
    requires { ReadFile file.now editions × StatementFits file.now book.old trip.now (length statement.old) }
    ensures { TripSized file.now book.old trip.now statement.old book.new
        statement.new result }
{
    match settle_under(file, editions, book, trip, statement) {
        Answer::Refused {
            number: _,
            place: _,
        } => 0,
        Answer::Written(size) => size,
    }
}

// The next record settled, or the replacement in its place.
fn take_turn(
    file: &[u8],
    editions: Editions,
    book: &mut [u8],
    roll: &[u8],
    cursor: Cursor,
    replacement: &[u8],
    statement: &mut [u8],
) -> Turn
    requires { ReadFile file.now editions × NextFits file.now book.old (rest_of roll.now replacement.now cursor) (length statement.old) }
    ensures { TurnTaken file.now roll.now replacement.now book.old cursor statement.old
        book.new statement.new result }
{
    if cursor.left == 0 {
        return Turn::End;
    }
    let next = cursor.next;
    match frame_at(roll, next) {
        Frame::Broken => Turn::End,
        Frame::Whole { kind: _, body } => {
            let end = next + HEAD + body;
            let rest = behind(cursor, end);
            if cursor.until == 1 {
                return Turn::Settled {
                    size: settle_sized(file, editions, book, replacement, statement),
                    cursor: rest,
                };
            }
            Turn::Settled {
                size: settle_sized(file, editions, book, &roll[next..end], statement),
                cursor: rest,
            }
        }
    }
}

// A roll settled from a fresh book on, for which the book is lent: each payer's charges are added to the sums. How many bytes all statements have.
pub fn add_up(
    file: &[u8],
    editions: Editions,
    book: &mut [u8],
    roll: &[u8],
    n: u32,
    replacement: &[u8],
    sums: &mut [u64; PAYERS],
) -> usize
    requires { ReadFile file.now editions × ((length book.old ≡ book_size) × AtMost 0 sums.old) }
    ensures { AddedUp file.now roll.now n replacement.now sums.new result
        × (length book.new ≡ book_size) }
{
    clear(book);
    let mut statement = [0u8; LARGEST_STATEMENT];
    let mut cursor = start(n);
    let mut bytes: usize = 0;
    loop {
        match take_turn(
            file,
            editions,
            book,
            roll,
            cursor,
            replacement,
            &mut statement,
        ) {
            Turn::End => break bytes,
            Turn::Settled {
                size,
                cursor: behind,
            } => {
                add_statement(sums, &statement, size);
                bytes = bytes + size;
                cursor = behind;
            }
        }
    }
}

// The same run, whose statements are written one behind another.
pub fn write_statements(
    file: &[u8],
    editions: Editions,
    book: &mut [u8],
    roll: &[u8],
    n: u32,
    replacement: &[u8],
    statements: &mut [u8],
)
    requires { ReadFile file.now editions × ((length book.old ≡ book_size)
        × (length (statements_in (settled_with file.now roll.now n replacement.now)) ≤ length statements.old)) }
    ensures { StatementsWritten file.now roll.now n replacement.now statements.old
        statements.new }
{
    clear(book);
    let mut cursor = start(n);
    let mut end: usize = 0;
    loop {
        match take_turn(
            file,
            editions,
            book,
            roll,
            cursor,
            replacement,
            &mut statements[end..],
        ) {
            Turn::End => break,
            Turn::Settled {
                size,
                cursor: behind,
            } => {
                end = end + size;
                cursor = behind;
            }
        }
    }
}
