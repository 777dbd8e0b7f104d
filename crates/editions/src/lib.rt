// A tariff file: one or two editions, each opened by a record with the date from which it is valid, and then a tariff. What any byte string
// offered as a file is read as, which edition is in force at a minute, and where an edition's tariff stands.
//
// openings.rt  the record that opens an edition
#![tactic(auto)]

ghost use Rattle.std.specs.Prelude.{◌≡◌, ◌+◌, ◌≤◌, length};
ghost use Rattle.calendar.specs.Stamps.{last_minute};
ghost use Rattle.editions.specs.Openings.{opening_size};
ghost use Rattle.editions.specs.Editions.{many_of, counts_in, tariff_in, start_in, end_in, in_force};
ghost use Rattle.editions.specs.Reading.{read_file, read_first, read_second, ReadFile};

use crate::openings::{OPENING_SIZE, Opening, opening_at, opens_at};
use layout::starts::tariff_size;
use layout::{Counts, Reading};
use scan::{Halt, halt_of, read_tariff};
use units::Minutes;

pub mod openings;

// So many bytes decide what a file is read as.
pub const DECIDING_BYTES: usize = 30_088;

// An edition: the first minute in UTC from which it is valid, and its tariff's counts.
#[derive(Clone, Copy)]
pub struct Edition {
    pub since: Minutes,
    pub counts: Counts,
}

#[derive(Clone, Copy)]
pub enum Editions {
    One(Edition),
    Two(Edition, Edition),
}

// What reading a file comes to: the first faulty record's refusal and offset in the file, or its editions.
#[derive(Clone, Copy)]
pub enum FileReading {
    Fault { number: u8, at: usize },
    Faultless(Editions),
}

// The second edition, which begins at a place, behind the first.
fn read_second(file: &[u8], first: Edition, at: usize) -> FileReading
    requires { (at ≤ length file.now) × (first.since.0 ≤ last_minute) }
    ensures { result ≡ read_second file.now first at }
{
    match opening_at(file, at, first.since.0 + 1) {
        Opening::Faulty(number) => FileReading::Fault { number, at },
        Opening::Since(since) => {
            let start = at + OPENING_SIZE;
            match read_tariff(&file[start..]) {
                Reading::Fault { number, at } => FileReading::Fault {
                    number,
                    at: start + at,
                },
                Reading::Faultless(counts) => FileReading::Faultless(Editions::Two(
                    first,
                    Edition { since, counts },
                )),
            }
        }
    }
}

// The first edition, valid from a minute on, and what is behind it.
fn read_first(file: &[u8], since: Minutes) -> FileReading
    requires { (opening_size ≤ length file.now) × (since.0 ≤ last_minute) }
    ensures { result ≡ read_first file.now since }
{
    match halt_of(&file[OPENING_SIZE..]) {
        Halt::End(counts) => FileReading::Faultless(Editions::One(Edition { since, counts })),
        Halt::Amid { number, at } => FileReading::Fault {
            number,
            at: OPENING_SIZE + at,
        },
        Halt::Behind { number, at, before } => {
            let next = OPENING_SIZE + at;
            if opens_at(file, next) {
                let counts = before;
                read_second(file, Edition { since, counts }, next)
            } else {
                FileReading::Fault { number, at: next }
            }
        }
    }
}

// The first fault of any byte string offered as a file, or its editions.
pub fn read_file(file: &[u8]) -> FileReading
    ensures { result ≡ read_file file.now }
{
    // Borrowed anew, a slice comes in registers; else each caller keeps a copy of it on the stack for us.
    let file = &*file;
    match opening_at(file, 0, 0) {
        Opening::Faulty(number) => FileReading::Fault { number, at: 0 },
        Opening::Since(since) => read_first(file, since),
    }
}

pub fn many_of(editions: Editions) -> u8
    ensures { (result ≡ many_of editions) × (result ≤ 2) }
{
    match editions {
        Editions::One(first) => 1,
        Editions::Two(first, second) => 2,
    }
}

// The number of the last edition whose first minute is not after a minute; 0 where there is none.
pub fn in_force(editions: Editions, minute: Minutes) -> u8
    ensures { (result ≡ in_force editions minute.0) × (result ≤ many_of editions) × (result ≤ 2) }
{
    match editions {
        Editions::One(first) => { if first.since.0 <= minute.0 { 1 } else { 0 } }
        Editions::Two(first, second) => {
            if second.since.0 <= minute.0 {
                2
            } else if first.since.0 <= minute.0 {
                1
            } else {
                0
            }
        }
    }
}

// The counts of an edition's tariff, by its number.
pub fn counts_in(editions: Editions, number: u8) -> Counts
    ensures { result ≡ counts_in editions number }
{
    match editions {
        Editions::One(first) => first.counts,
        Editions::Two(first, second) => {
            if number == 2 {
                second.counts
            } else {
                first.counts
            }
        }
    }
}

// The bytes of an edition's tariff, by its number.
pub fn tariff_in(file: &[u8], editions: Editions, number: u8) -> &[u8]
    requires { ReadFile file.now editions }
    ensures { result.now ≡ tariff_in file.now editions number }
{
    match editions {
        Editions::One(first) => &file[OPENING_SIZE..],
        Editions::Two(first, second) => {
            let counts = first.counts;
            let end = OPENING_SIZE + tariff_size(counts);
            if number == 2 {
                let start = end + OPENING_SIZE;
                &file[start..]
            } else {
                &file[OPENING_SIZE..end]
            }
        }
    }
}

// Where an edition's tariff begins in the file, by its number.
pub fn start_in(editions: Editions, number: u8) -> usize
    ensures { result ≡ start_in editions number }
{
    match editions {
        Editions::One(first) => OPENING_SIZE,
        Editions::Two(first, second) => {
            if number == 2 {
                let counts = first.counts;
                OPENING_SIZE + tariff_size(counts) + OPENING_SIZE
            } else {
                OPENING_SIZE
            }
        }
    }
}

// Where it ends.
pub fn end_in(file: &[u8], editions: Editions, number: u8) -> usize
    ensures { result ≡ end_in file.now editions number }
{
    match editions {
        Editions::One(first) => file.len(),
        Editions::Two(first, second) => {
            if number == 2 {
                file.len()
            } else {
                let counts = first.counts;
                OPENING_SIZE + tariff_size(counts)
            }
        }
    }
}
