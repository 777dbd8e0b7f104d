// Settling one trip: the refusals in their order, or its charge records and the new book. And the same in two steps: a quote, which
// writes only the records, and the posting of that quote, which writes only the book.
//
// state.rt    what a trip meets, or its records; of the book it only reads
// records.rt  the records posted to the book
// quotes.rt   a quote, and the posting of a quote
//
// Decide first, write last: only where all conditions are clear are book and statement written.
#![tactic(auto)]

ghost use Rattle.editions.specs.Reading.{ReadFile};
ghost use Rattle.deciding.specs.Clauses.{Ready};
ghost use Rattle.settle.specs.Clauses.{NextSettled, UnderSettled, TripSettled};

use deciding::ready::{Readiness, is_sound_in, readiness_of};
use deciding::refusals::{Refusal, number};
use editions::Editions;
use records::post_records;
use state::{Stated, state_trip};

pub mod quotes;
pub mod records;
pub mod state;

// What settling, a quote or a posting comes to: a refusal's number and place, or the bytes written.
#[derive(Clone, Copy)]
pub enum Answer {
    Refused { number: u8, place: usize },
    Written(usize),
}

// 5 to 12: on a book that is sound, which is left sound. What a roll does for each record, with neither file nor book looked through again. A
// trip that meets no refusal is stated, then its records are posted, both under the edition of its window.
pub fn settle_next(
    file: &[u8],
    editions: Editions,
    book: &mut [u8],
    trip: &[u8],
    statement: &mut [u8],
) -> Answer
    requires { Ready file.now editions book.old }
    ensures { NextSettled file.now editions book.old trip.now statement.old book.new
        statement.new result }
{
    match state_trip(file, editions, book, trip, statement) {
        Stated::Refused(why) => Answer::Refused {
            number: number(why),
            place: 0,
        },
        Stated::Records {
            size,
            window,
            checkout,
            class,
            from,
            to,
            counts,
        } => {
            post_records(
                &file[from..to],
                counts,
                book,
                window,
                checkout,
                class,
                statement,
                size,
            );
            Answer::Written(size)
        }
    }
}

// 4 to 12: under a file that was read and found faultless, on any byte string as a book. For whoever has something else to refuse between
// the file and the book.
pub fn settle_under(
    file: &[u8],
    editions: Editions,
    book: &mut [u8],
    trip: &[u8],
    statement: &mut [u8],
) -> Answer
    requires { ReadFile file.now editions }
    ensures { UnderSettled file.now editions book.old trip.now statement.old book.new
        statement.new result }
{
    if !is_sound_in(editions, book) {
        return Answer::Refused {
            number: number(Refusal::UnsoundBook),
            place: 0,
        };
    }
    settle_next(file, editions, book, trip, statement)
}

// 1 to 12: under any byte string as a file. The charge records go to the start of the statement, and the book is brought up to date; a
// refusal touches neither. It does not go through `settle_under`, whose frame would come on top.
pub fn settle(file: &[u8], book: &mut [u8], trip: &[u8], statement: &mut [u8]) -> Answer
    ensures { TripSettled file.now book.old trip.now statement.old book.new
        statement.new result }
{
    match readiness_of(file, book) {
        Readiness::Refused { number, place } => Answer::Refused { number, place },
        Readiness::Ready(editions) => settle_next(file, editions, book, trip, statement),
    }
}
