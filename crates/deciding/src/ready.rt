// What does not depend on the trip: whether the file has a fault, and whether the book is sound under its editions.
ghost use Rattle.std.specs.Prelude.{◌≡◌};
ghost use Rattle.deciding.specs.Refusals.{sound_in};
ghost use Rattle.deciding.specs.Deciding.{readiness_of};

use crate::refusals::{Refusal, number};
use editions::{Editions, FileReading, counts_in, many_of, read_file};
use ledger::sound::{covers_within, is_sound_alone};
use ledger::words::{EDITION, get};

#[derive(Clone, Copy)]
pub enum Readiness {
    Refused { number: u8, place: usize },
    Ready(Editions),
}

// 4: whether any byte string is a sound book under these editions.
pub fn is_sound_in(editions: Editions, book: &[u8]) -> bool
    ensures { result ≡ sound_in editions book.now }
{
    // Borrowed anew, a slice comes in registers; else each caller keeps a copy of it on the stack for us.
    let book = &*book;
    if !is_sound_alone(book) {
        return false;
    }
    let edition = get(book, EDITION);
    if edition > many_of(editions) as u32 {
        return false;
    }
    let counts = counts_in(editions, edition as u8);
    covers_within(book, counts.areas as usize)
}

// 1 to 4, or the editions of a faultless file under which the book is sound.
pub fn readiness_of(file: &[u8], book: &[u8]) -> Readiness
    ensures { result ≡ readiness_of file.now book.now }
{
    // Borrowed anew, slices come in registers; else each caller keeps copies of them on the stack for us.
    let file = &*file;
    let book = &*book;
    match read_file(file) {
        FileReading::Fault { number, at } => Readiness::Refused { number, place: at },
        FileReading::Faultless(editions) => {
            if is_sound_in(editions, book) {
                Readiness::Ready(editions)
            } else {
                Readiness::Refused {
                    number: number(Refusal::UnsoundBook),
                    place: 0,
                }
            }
        }
    }
}
