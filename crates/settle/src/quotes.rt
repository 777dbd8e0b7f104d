// A quote: what settling would write to the statement, on a book that is only read. And the posting of a quote: everything is checked again, the
// quote is stated anew, and only where the record offered is exactly its bytes is the book written. No amount is taken from the record offered.
ghost use Rattle.std.specs.Prelude.{◌≡◌};
ghost use Rattle.deciding.specs.Clauses.{Ready};
ghost use Rattle.settle.specs.Posting.{same_bytes};
ghost use Rattle.settle.specs.Clauses.{NextQuoted, TripQuoted, NextPosted, TripPosted};

use crate::Answer;
use crate::records::post_records;
use crate::state::{Stated, state_trip};
use deciding::ready::{Readiness, readiness_of};
use deciding::refusals::{Refusal, number};
use editions::Editions;
use statement::LARGEST_STATEMENT;

// 5 to 12: on a book that is sound.
pub fn quote_next(
    file: &[u8],
    editions: Editions,
    book: &[u8],
    trip: &[u8],
    statement: &mut [u8],
) -> Answer
    requires { Ready file.now editions book.now }
    ensures { NextQuoted file.now editions book.now trip.now statement.old statement.new result }
{
    match state_trip(file, editions, book, trip, statement) {
        Stated::Refused(why) => Answer::Refused {
            number: number(why),
            place: 0,
        },
        Stated::Records {
            size,
            window: _,
            checkout: _,
            class: _,
            from: _,
            to: _,
            counts: _,
        } => Answer::Written(size),
    }
}

// 1 to 12: under any byte string as a file. The charge records go to the start of the statement; a refusal does not touch it.
pub fn quote(file: &[u8], book: &[u8], trip: &[u8], statement: &mut [u8]) -> Answer
    ensures { TripQuoted file.now book.now trip.now statement.old statement.new result }
{
    match readiness_of(file, book) {
        Readiness::Refused { number, place } => Answer::Refused { number, place },
        Readiness::Ready(editions) => quote_next(file, editions, book, trip, statement),
    }
}

// Whether two byte strings are the same. The loop has no early way out, so that the compiler can take many bytes at a time.
fn same_bytes(bytes: &[u8], other: &[u8]) -> bool
    ensures { result ≡ same_bytes bytes.now other.now }
{
    if bytes.len() != other.len() {
        return false;
    }
    let mut same = true;
    for i in 0..other.len() {
        same = same & (bytes[i] == other[i]);
    }
    same
}

// 5 to 11 and 13: on a book that is sound. The buffer has room for every statement, so 12 is never met.
pub fn post_next(
    file: &[u8],
    editions: Editions,
    book: &mut [u8],
    trip: &[u8],
    offered: &[u8],
) -> Answer
    requires { Ready file.now editions book.old }
    ensures { NextPosted file.now editions book.old trip.now offered.now book.new result }
{
    let mut quote = [0u8; LARGEST_STATEMENT];
    match state_trip(file, editions, book, trip, &mut quote) {
        Stated::Refused(why) => Answer::Refused {
            number: number(why),
            place: 0,
        },
        Stated::Records {
            size,
            window,
            checkout,
            class,
            from,
            to,
            counts,
        } => {
            if !same_bytes(&quote[..size], offered) {
                return Answer::Refused {
                    number: number(Refusal::OtherRecord),
                    place: 0,
                };
            }
            post_records(
                &file[from..to],
                counts,
                book,
                window,
                checkout,
                class,
                &quote,
                size,
            );
            Answer::Written(book.len())
        }
    }
}

// 1 to 11 and 13: under any byte string as a file. The book is brought up to date; a refusal does not touch it.
pub fn post_quote(file: &[u8], book: &mut [u8], trip: &[u8], offered: &[u8]) -> Answer
    ensures { TripPosted file.now book.old trip.now offered.now book.new result }
{
    match readiness_of(file, book) {
        Readiness::Refused { number, place } => Answer::Refused { number, place },
        Readiness::Ready(editions) => post_next(file, editions, book, trip, offered),
    }
}
