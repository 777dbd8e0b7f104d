// Columns of a line, each put behind what was put before.
ghost use Rattle.std.specs.Prelude.{◌+◌, ◌≤◌, [], ◌∷◌, ◌++◌, length};
ghost use Rattle.text.specs.Texts.{decimal};
ghost use Rattle.text.specs.Clauses.{Put};
ghost use Rattle.csv_table.specs.Text.{two_digits, four_digits, moment_text};

use calendar::Moment;
use text::output::Output;

// A comma, perhaps a word behind it, and a number.
pub fn put_column<const N: usize>(out: &mut Output<N>, text: &[u8], number: u32)
    requires { length out.old + length text.now + 10 ≤ N }
    ensures { Put (text.now ++ decimal number) (length text.now + 10) out.old out.new }
{
    out.put_text(text);
    out.put_small(number);
}

// The four digits of a year.
fn put_year<const N: usize>(out: &mut Output<N>, year: u16)
    requires { length out.old + 4 ≤ N }
    ensures { Put (four_digits year) 4 out.old out.new }
{
    let digits = [
        b'0' + (year / 1_000 % 10) as u8,
        b'0' + (year / 100 % 10) as u8,
        b'0' + (year / 10 % 10) as u8,
        b'0' + (year % 10) as u8,
    ];
    out.put_text(&digits);
}

// A mark, and behind it the two digits of a month, a day, an hour or a minute.
fn put_marked<const N: usize>(out: &mut Output<N>, mark: u8, number: u8)
    requires { length out.old + 3 ≤ N }
    ensures { Put ((mark ∷ []) ++ two_digits number) 3 out.old out.new }
{
    let digits = [mark, b'0' + number / 10 % 10, b'0' + number % 10];
    out.put_text(&digits);
}

pub fn put_moment<const N: usize>(out: &mut Output<N>, moment: Moment)
    requires { length out.old + 17 ≤ N }
    ensures { Put (moment_text moment) 17 out.old out.new }
{
    put_year(out, moment.year);
    put_marked(out, b'-', moment.month);
    put_marked(out, b'-', moment.day);
    put_marked(out, b'T', moment.hour);
    put_marked(out, b':', moment.minute);
    out.put_byte(b'Z');
}
