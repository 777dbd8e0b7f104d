// Words and numbers, put behind a place of a slice: each function answers the place behind what it has put. The digits are put several at a time
// and the last ones of them are none of the number's: so these take a slice and a place. An `Output` puts by them into its own room.
ghost use Rattle.std.specs.Prelude.{◌+◌, ◌≤◌, [], ◌∷◌, ◌++◌, length};
ghost use Rattle.text.specs.Texts.{decimal};
ghost use Rattle.text.specs.Clauses.{Behind};

use crate::digits::put_long_before;
use crate::fours::put_small;

pub fn put_byte(out: &mut [u8], place: usize, byte: u8) -> usize
    requires { place + 1 ≤ length out.old }
    ensures { Behind (byte ∷ []) 1 out.old place out.new result }
{
    out[place] = byte;
    place + 1
}

pub fn put_text(out: &mut [u8], place: usize, text: &[u8]) -> usize
    requires { place + length text.now ≤ length out.old }
    ensures { Behind text.now (length text.now) out.old place out.new result }
{
    let end = place + text.len();
    out[place..end].copy_from_slice(text);
    end
}

// A number's digits from a place on. Nearly all fit 32 bits; a longer one is put together from its end on, and copied.
pub fn put_number(out: &mut [u8], place: usize, number: u64) -> usize
    requires { place + 21 ≤ length out.old }
    ensures { Behind (decimal number) 21 out.old place out.new result }
{
    if number <= 4_294_967_295 {
        return put_small(out, place, number as u32);
    }
    let mut digits = [0u8; 21];
    let at = put_long_before(&mut digits, 21, number);
    put_text(out, place, &digits[at..])
}

// A text and a number behind it.
pub fn put_named(out: &mut [u8], place: usize, text: &[u8], number: u64) -> usize
    requires { place + length text.now + 21 ≤ length out.old }
    ensures { Behind (text.now ++ decimal number) (length text.now + 21) out.old place out.new result }
{
    let start = put_text(out, place, text);
    put_number(out, start, number)
}
