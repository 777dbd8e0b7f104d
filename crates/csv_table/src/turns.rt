// A turn: what stands at the start of the bytes that have come, read and put into the output.
ghost use Rattle.std.specs.Prelude.{◌+◌, ◌≤◌, ◌<◌, length};
ghost use Rattle.reader.specs.Reading.{read_at};
ghost use Rattle.csv_table.specs.Text.{record_text};
ghost use Rattle.csv_table.specs.Turns.{most_records, record_effect, broken_effect};
ghost use Rattle.csv_table.specs.Clauses.{most_turn, Did, Turned};

use crate::records::put_record;
use crate::rows::put_refused;
use text::output::Output;
use wire::{Frame, HEAD, LONGEST_RECORD, frame_at};

// The room that a turn takes at most: a line for each of 31 charges.
pub const ROOM: usize = 4_464;

// As many records as 64 bits can number: no statement has more.
pub const MOST_RECORDS: u64 = 18_446_744_073_709_551_615;

const BROKEN_FRAME: u8 = 14;

// What a turn comes to.
#[derive(Clone, Copy)]
pub enum Turn {
    // no whole record has come yet, and more can come
    More,
    // a record's lines were put: the bytes that it used, and its number
    On { used: usize, number: u64 },
    // the statement is over: the last line was put
    Over,
}

// A whole record. The statement goes on behind it, whether it was refused or not; only a number more than 64 bits have ends it.
fn take_record<const N: usize>(out: &mut Output<N>, number: u64, whole: &[u8]) -> Turn
    requires { length out.old + most_turn ≤ N }
    ensures { Did out.old out.new
        (record_effect (length whole.now) (record_text number (read_at whole.now 0)) number) result }
{
    let used = whole.len();
    put_record(out, number, whole);
    if number == MOST_RECORDS {
        return Turn::Over;
    }
    Turn::On { used, number }
}

// No whole record, in so many bytes: it may still come; or the statement is at its end, or has a broken frame there.
fn take_rest<const N: usize>(out: &mut Output<N>, number: u64, size: usize, more: bool) -> Turn
    requires { length out.old + most_turn ≤ N }
    ensures { Did out.old out.new (broken_effect size more number) result }
{
    if more & (size < LONGEST_RECORD) {
        return Turn::More;
    }
    if size == 0 {
        return Turn::Over;
    }
    put_refused(out, number, BROKEN_FRAME);
    Turn::Over
}

// What stands at the start of a piece; `more` says whether the statement can go on behind the piece, and `number` is that of the record before,
// 0 at first.
pub fn take_turn<const N: usize>(piece: &[u8], more: bool, out: &mut Output<N>, number: u64) -> Turn
    requires { (length out.old + most_turn ≤ N) × (number < most_records) }
    ensures { Turned piece.now more number out.old out.new result }
{
    let own = number + 1;
    match frame_at(piece, 0) {
        Frame::Whole { kind: _, body } => {
            let used = HEAD + body;
            take_record(out, own, &piece[..used])
        }
        Frame::Broken => take_rest(out, own, piece.len(), more),
    }
}
