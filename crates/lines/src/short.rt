// The line of a part by words of digits: nearly always its area, kilometres, minutes and cents have four digits at most, the trip's number and the
// opening minute eight, and then nothing is tested on the way. The blank behind a number, or the line's end, is put with its digits.
ghost use Rattle.std.specs.Prelude.{◌+◌, ◌≤◌, ◌<◌, length};
ghost use Rattle.text.specs.Clauses.{Put};
ghost use Rattle.lines.specs.Text.{entry_text};
ghost use Rattle.lines.specs.Clauses.{most_line};
ghost use Rattle.lines.specs.Short.{front_text, rest_text, most_half, Short};

use roll::Entry;
use text::fours::fours_of;
use text::output::Output;

// The trip's number, the area and the kilometres, with a blank behind each.
fn put_front<const N: usize>(out: &mut Output<N>, number: u32, entry: Entry)
    requires { (number < 100000000) × ((entry.km < 10000) × (length out.old + most_half ≤ N)) }
    ensures { Put (front_text number entry.area entry.km) most_half out.old out.new }
{
    let area = entry.area as u64;
    let km = entry.km as u64;
    let digits = fours_of(area, km);
    out.put_up_to_eight(number);
    out.put_byte(b' ');
    out.put_four(area, digits.front, b' ');
    out.put_four(km, digits.back, b' ');
}

// The minutes, the opening minute and the cents, with the line's end behind them.
fn put_rest<const N: usize>(out: &mut Output<N>, entry: Entry)
    requires { (entry.minutes < 10000) × ((entry.opening < 100000000) × ((entry.cents < 10000) × (length out.old + most_half ≤ N))) }
    ensures { Put (rest_text entry.minutes entry.opening entry.cents) most_half out.old out.new }
{
    let minutes = entry.minutes as u64;
    let digits = fours_of(minutes, entry.cents);
    out.put_four(minutes, digits.front, b' ');
    out.put_up_to_eight(entry.opening);
    out.put_byte(b' ');
    out.put_four(entry.cents, digits.back, b'\n');
}

pub fn put_short<const N: usize>(out: &mut Output<N>, number: u32, entry: Entry)
    requires { Short number entry.area entry.km entry.minutes entry.opening entry.cents × (length out.old + most_line ≤ N) }
    ensures { Put (entry_text number entry) most_line out.old out.new }
{
    put_front(out, number, entry);
    put_rest(out, entry);
}
