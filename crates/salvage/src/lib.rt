// A torn roll: records that are whole are kept, and moved to the front of the roll that is lent; of each longest run of other bytes a line is put
// together. Neither tariff nor book is asked, and no stop, stamp or order: what is kept may still be refused when it is settled.
#![tactic(auto)]

ghost use Rattle.std.specs.Prelude.{◌≡◌, ◌+◌, ◌≤◌, [], ◌∷◌, ◌++◌, length};
ghost use Rattle.text.specs.Texts.{decimal};
ghost use Rattle.text.specs.Clauses.{Put};
ghost use Rattle.salvage.specs.Salvage.{most_roll, kept_at, line_of, run_of, lines_in};
ghost use Rattle.salvage.specs.Clauses.{room_size, most_line, LineRoom, moved_to, Passing, Stepped, Done};

use text::output::Output;
use trip::{FIXED, Shape, class_at, level_at, party_at, party_right, shape_at};

// The longest roll that is salvaged.
pub const ROLL: usize = 60_000;

// A line has two numbers of five digits, a space and a line's end.
const LINE: usize = 12;

// A run has a byte at least, and the record behind it, with two stops, 28.
const RUN_AND_RECORD: usize = 29;

// Room for the lines: as many as there may be with a record behind each, the last one, and two bytes to spare, since digits are put by eight.
pub const LINES: usize = LINE * ROLL / RUN_AND_RECORD + LINE + 2;

// How far a pass has come: the place that is looked at, the place from which on bytes are dropped, and the bytes that are kept.
#[derive(Clone, Copy)]
pub struct Pass {
    pub at: usize,
    pub from: usize,
    pub kept: usize,
}

// The length of the record that is kept where it begins at a place.
fn kept_at(roll: &[u8], at: usize) -> Option<usize>
    ensures { result ≡ kept_at roll.now at }
{
    let Shape::Stops(stops) = shape_at(roll, at) else {
        return None;
    };
    if party_right(
        class_at(roll, at),
        level_at(roll, at),
        party_at(roll, at),
        stops,
    ) {
        return Some(FIXED + 2 * stops);
    }
    None
}

// A number of five digits at most, and a mark behind it.
fn put_marked(lines: &mut Output<LINES>, number: usize, mark: u8)
    requires { (number ≤ most_roll) × (length lines.old + 8 ≤ room_size) }
    ensures { Put (decimal number ++ (mark ∷ [])) 6 lines.old lines.new }
{
    lines.put_up_to_eight(number as u32);
    lines.put_byte(mark);
}

// The line of a run.
fn put_line(lines: &mut Output<LINES>, offset: usize, size: usize)
    requires { (length lines.old + 14 ≤ room_size) × ((offset ≤ most_roll) × (size ≤ most_roll)) }
    ensures { Put (line_of offset size) 12 lines.old lines.new }
{
    put_marked(lines, offset, b' ');
    put_marked(lines, size, b'\n');
}

// The line of the run between two places, where a byte lies between them.
fn put_run(lines: &mut Output<LINES>, from: usize, to: usize)
    requires { LineRoom lines.old from to }
    ensures { Put (lines_in (run_of from to)) (most_line from to) lines.old lines.new }
{
    if from < to {
        put_line(lines, from, to - from);
    }
}

// Moves bytes to a place that is not behind theirs.
fn move_to(roll: &mut [u8], to: usize, from: usize, count: usize)
    requires { (to ≤ from) × (from + count ≤ length roll.old) }
    ensures { roll.new ≡ moved_to roll.old to from count }
{
    roll.copy_within(from..from + count, to);
}

// One step: a byte is dropped, or a record is kept, behind the line of the run before it.
fn take_step(roll: &mut [u8], lines: &mut Output<LINES>, pass: Pass) -> Pass
    requires { Passing roll.old lines.old pass }
    ensures { Stepped roll.old lines.old pass roll.new lines.new result }
{
    let Some(size) = kept_at(roll, pass.at) else {
        return Pass {
            at: pass.at + 1,
            ..pass
        };
    };
    put_run(lines, pass.from, pass.at);
    move_to(roll, pass.kept, pass.at, size);
    let at = pass.at + size;
    Pass {
        at,
        from: at,
        kept: pass.kept + size,
    }
}

// Salvages a roll: what is kept comes to its front, and what is printed is put into the lines, from nothing on. The answer is how many bytes are kept,
// or none where the roll is too long.
pub fn salvage(roll: &mut [u8], lines: &mut Output<LINES>) -> Option<usize>
    ensures { Done roll.old roll.new lines.new result }
{
    let size = roll.len();
    lines.clear();
    if ROLL < size {
        lines.put_text(b"too long\n");
        return None;
    }
    let mut pass = Pass {
        at: 0,
        from: 0,
        kept: 0,
    };
    while pass.at < size {
        pass = take_step(roll, lines, pass);
    }
    put_run(lines, pass.from, size);
    Some(pass.kept)
}
