// A corrected roll: one of its records is exchanged, the roll is settled afresh, and each payer's sums are compared with those of the roll as it was.
//
// payers.rt  what each payer is charged, added up over records; the differences
// runs.rt    a roll settled afresh, record by record
//
// Decide first, write last: both rolls are settled before anything is written, and a refusal changes no byte of statements and differences.
#![tactic(auto)]

ghost use Rattle.std.specs.Prelude.{◌≡◌, true, length};
ghost use Rattle.editions.specs.Reading.{ReadFile};
ghost use Rattle.corrections.specs.Corrections.{has_record, correction_of};
ghost use Rattle.corrections.specs.Clauses.{CorrectionTold};

use editions::{Editions, FileReading, read_file};
use payers::{DIFFERENCES, PAYERS, put_differences};
use roll::{MOST_RECORDS, fresh_book};
use runs::{add_up, write_statements};
use settle::Answer;
use wire::{Frame, HEAD, frame_at};

pub mod payers;
pub mod runs;

// The roll has no whole nth record.
const NO_RECORD: u8 = 23;

// Not all statements fit, or the differences do not.
const NO_ROOM: u8 = 12;

// Whether a roll has an nth record with a whole frame, counted from 1.
fn has_record(roll: &[u8], n: u32) -> bool
    ensures { result ≡ has_record roll.now n }
{
    if (n == 0) | (MOST_RECORDS < n) {
        return false;
    }
    let mut next: usize = 0;
    for _ in 0..n {
        match frame_at(roll, next) {
            Frame::Broken => {
                return false;
            }
            Frame::Whole { kind: _, body } => {
                next = next + HEAD + body;
            }
        }
    }
    true
}

// 12, under a faultless file and with a record to exchange.
fn correct_under(
    file: &[u8],
    editions: Editions,
    roll: &[u8],
    n: u32,
    replacement: &[u8],
    statements: &mut [u8],
    differences: &mut [u8],
) -> Answer
    requires { ReadFile file.now editions × (has_record roll.now n ≡ true) }
    ensures { CorrectionTold (correction_of file.now roll.now n replacement.now
        (length statements.old) (length differences.old)) statements.old statements.new
        differences.old differences.new result }
{
    let mut book = fresh_book();
    let mut old = [0u64; PAYERS];
    let mut new = [0u64; PAYERS];
    add_up(file, editions, &mut book, roll, 0, replacement, &mut old);
    let bytes = add_up(file, editions, &mut book, roll, n, replacement, &mut new);
    if (statements.len() < bytes) | (differences.len() < DIFFERENCES) {
        return Answer::Refused {
            number: NO_ROOM,
            place: 0,
        };
    }
    write_statements(file, editions, &mut book, roll, n, replacement, statements);
    put_differences(differences, &old, &new);
    Answer::Written(bytes)
}

// Corrects a roll under any byte strings: 23, 1 to 3 with their place, and 12 last. The statements of the corrected roll go to the start of
// `statements`, one behind another, and each payer's new sum less the old one to the start of `differences`.
pub fn correct(
    file: &[u8],
    roll: &[u8],
    n: u32,
    replacement: &[u8],
    statements: &mut [u8],
    differences: &mut [u8],
) -> Answer
    ensures { CorrectionTold (correction_of file.now roll.now n replacement.now
        (length statements.old) (length differences.old)) statements.old statements.new
        differences.old differences.new result }
{
    if !has_record(roll, n) {
        return Answer::Refused {
            number: NO_RECORD,
            place: 0,
        };
    }
    match read_file(file) {
        FileReading::Fault { number, at } => Answer::Refused { number, place: at },
        FileReading::Faultless(editions) => correct_under(
            file,
            editions,
            roll,
            n,
            replacement,
            statements,
            differences,
        ),
    }
}
