// Numbers in decimal, put in front of a place: the last digit first, so that nobody has to count them. Each function answers where what
// it has put begins. (The place is counted by hand: the number says when its digits are at an end, and an iterator over places would not.)
ghost use Rattle.std.specs.Prelude.{◌≤◌, length};
ghost use Rattle.text.specs.Texts.{decimal};
ghost use Rattle.text.specs.Clauses.{Before};

// A number of 32 bits has 10 digits at most.
pub fn put_before(text: &mut [u8], end: usize, number: u32) -> usize
    requires { (10 ≤ end) × (end ≤ length text.old) }
    ensures { Before (decimal number) 10 text.old end text.new result }
{
    let mut at = end - 1;
    text[at] = b'0' + (number % 10) as u8;
    let mut rest = number / 10;
    while 0 < rest {
        at -= 1;
        text[at] = b'0' + (rest % 10) as u8;
        rest = rest / 10;
    }
    at
}

// The same of a long number, for which 21 places are enough: once what is left fits 32 bits, it is put as above.
pub fn put_long_before(text: &mut [u8], end: usize, number: u64) -> usize
    requires { (21 ≤ end) × (end ≤ length text.old) }
    ensures { Before (decimal number) 21 text.old end text.new result }
{
    let mut at = end;
    let mut rest = number;
    while 4_294_967_295 < rest {
        at -= 1;
        text[at] = b'0' + (rest % 10) as u8;
        rest = rest / 10;
    }
    put_before(text, at, rest as u32)
}
