// The texts of a roll, each put behind what was put before.
ghost use Rattle.std.specs.Prelude.{◌+◌, ◌≤◌, length};
ghost use Rattle.roll.specs.declared.Line.TheVariants.{Refused};
ghost use Rattle.text.specs.Clauses.{Put};
ghost use Rattle.lines.specs.Text.{header, entry_text, line_text, tail_text, fault_text};
ghost use Rattle.lines.specs.Clauses.{most_ride, most_line, most_record, ride_text};

use crate::short::put_short;
use crate::spaced::{put_long_spaced, put_spaced};
use crate::tally::Tally;
use roll::{Entry, Line};
use text::output::Output;

// The first line.
pub fn put_header<const N: usize>(out: &mut Output<N>)
    requires { length out.old + 28 ≤ N }
    ensures { Put header 28 out.old out.new }
{
    out.put_text(b"trip area km min open cents\n");
}

// What a part's line begins with: the trip's number, and the ride's area, kilometres and minutes.
fn put_ride<const N: usize>(out: &mut Output<N>, number: u32, entry: Entry)
    requires { length out.old + most_ride ≤ N }
    ensures { Put (ride_text number entry.area entry.km entry.minutes) most_ride out.old out.new }
{
    out.put_small(number);
    put_spaced(out, entry.area as u32);
    put_spaced(out, entry.km as u32);
    put_spaced(out, entry.minutes as u32);
}

// The line of a part, number by number.
fn put_long<const N: usize>(out: &mut Output<N>, number: u32, entry: Entry)
    requires { length out.old + most_line ≤ N }
    ensures { Put (entry_text number entry) most_line out.old out.new }
{
    put_ride(out, number, entry);
    put_spaced(out, entry.opening);
    put_long_spaced(out, entry.cents);
    out.put_byte(b'\n');
}

// The line of a part: at once where its numbers are short, which their sums tell.
fn put_charged<const N: usize>(out: &mut Output<N>, number: u32, entry: Entry)
    requires { length out.old + most_line ≤ N }
    ensures { Put (entry_text number entry) most_line out.old out.new }
{
    let eights = number as u64 + entry.opening as u64;
    let fours = entry.area as u32 + entry.km as u32 + entry.minutes as u32;
    if eights < 100_000_000 && fours < 10_000 && entry.cents < 10_000 {
        put_short(out, number, entry);
    } else {
        put_long(out, number, entry);
    }
}

// The line of a refused record.
pub fn put_refused<const N: usize>(out: &mut Output<N>, number: u32, refusal: u64)
    requires { length out.old + most_line ≤ N }
    ensures { Put (line_text number (Refused refusal)) most_line out.old out.new }
{
    out.put_number(number as u64);
    out.put_named(b" refused ", refusal);
    out.put_text(b"\n");
}

// What is printed of a record: its number, and what the library says of it; two parts have a line each under the one number.
pub fn put_line<const N: usize>(out: &mut Output<N>, number: u32, line: Line)
    requires { length out.old + most_record ≤ N }
    ensures { Put (line_text number line) most_record out.old out.new }
{
    match line {
        Line::Charged(entry) => put_charged(out, number, entry),
        Line::Both(one, other) => {
            put_charged(out, number, one);
            put_charged(out, number, other);
        }
        Line::Refused(refusal) => put_refused(out, number, refusal),
    }
}

// The last line.
pub fn put_tail<const N: usize>(out: &mut Output<N>, tally: Tally)
    requires { length out.old + most_line ≤ N }
    ensures { Put (tail_text tally.accepted tally.refused tally.cents) most_line out.old out.new }
{
    out.put_named(b"accepted ", tally.accepted as u64);
    out.put_named(b" refused ", tally.refused as u64);
    out.put_named(b" cents ", tally.cents);
    out.put_text(b"\n");
}

// The one line of a refused tariff.
pub fn put_fault<const N: usize>(out: &mut Output<N>, refusal: u8, place: usize)
    requires { length out.old + 64 ≤ N }
    ensures { Put (fault_text refusal place) 64 out.old out.new }
{
    out.put_named(b"tariff refused ", refusal as u64);
    out.put_named(b" at ", place as u64);
    out.put_text(b"\n");
}
