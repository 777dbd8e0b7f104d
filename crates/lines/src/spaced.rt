// Numbers behind a blank.
ghost use Rattle.std.specs.Prelude.{◌+◌, ◌≤◌, ◌++◌, length};
ghost use Rattle.text.specs.Texts.{bytes, decimal};
ghost use Rattle.text.specs.Clauses.{Put};

use text::output::Output;

// A blank, and a number behind it.
pub fn put_spaced<const N: usize>(out: &mut Output<N>, number: u32)
    requires { length out.old + 11 ≤ N }
    ensures { Put (bytes " " ++ decimal number) 11 out.old out.new }
{
    out.put_byte(b' ');
    out.put_small(number);
}

// The same of a long number: a twin, since a line has room for the digits of one such number and not of five.
pub fn put_long_spaced<const N: usize>(out: &mut Output<N>, number: u64)
    requires { length out.old + 22 ≤ N }
    ensures { Put (bytes " " ++ decimal number) 22 out.old out.new }
{
    out.put_byte(b' ');
    out.put_number(number);
}
