// Numbers in decimal by words of eight bytes, with no loop and no test of how many digits there are. Two numbers below 10,000 stand in a word's
// halves, and their digits are found at once: a hundredth is 5,243 / 2^19, a tenth 103 / 2^10, rounded down, which is right below 10,000 and below
// 100, and no part of the word reaches into the next. The first digit stands in the lowest byte, so the zeros in front are the word's lowest bytes:
// shifted out, the number's own digits are put from the place on, and what is put behind them is none of its text.
ghost use Rattle.std.specs.Prelude.{◌≡◌, ◌+◌, ◌≤◌, ◌<◌, [], ◌∷◌, ◌++◌, length};
ghost use Rattle.text.specs.Texts.{decimal};
ghost use Rattle.text.specs.Fours.{four, two_fours, word_of, first_bytes};
ghost use Rattle.text.specs.Clauses.{Behind};

use crate::behind::put_text;
use crate::digits::put_before;

// The digits of two numbers, a word for each.
#[derive(Clone, Copy)]
pub struct Fours {
    pub front: u64,
    pub back: u64,
}

// The four digits of a number and the four of another behind them, one in each byte.
fn digits_of(front: u64, back: u64) -> u64
    requires { (front < 10000) × (back < 10000) }
    ensures { (result ≡ word_of (two_fours front back)) × (result ≤ 651061555542690057) }
{
    let numbers = front + 4_294_967_296 * back;
    let by_100 = numbers * 5_243 / 524_288;
    let hundreds = by_100 % 128 + 4_294_967_296 * (by_100 / 4_294_967_296 % 128);
    let pairs = hundreds + 65_536 * (numbers - 100 * hundreds);
    let by_10 = pairs * 103 / 1_024;
    let tens = by_10 % 16
        + 65_536 * (by_10 / 65_536 % 16)
        + 4_294_967_296 * (by_10 / 4_294_967_296 % 16)
        + 281_474_976_710_656 * (by_10 / 281_474_976_710_656 % 16);
    tens + 256 * (pairs - 10 * tens)
}

// The same in two words.
pub fn fours_of(front: u64, back: u64) -> Fours
    requires { (front < 10000) × (back < 10000) }
    ensures { (result.front ≡ word_of (four front)) × (result.back ≡ word_of (four back)) }
{
    let digits = digits_of(front, back);
    Fours {
        front: digits % 4_294_967_296,
        back: digits / 4_294_967_296,
    }
}

// A word's bytes, the lowest first: the compiler makes one store of it.
fn put_eight(out: &mut [u8], place: usize, word: u64)
    requires { place + 8 ≤ length out.old }
    ensures { Behind (first_bytes 8 word) 8 out.old place out.new (place + 8) }
{
    out[place..place + 8].copy_from_slice(&word.to_le_bytes());
}

// A number of eight digits at most. With 2^60 added the last digit's byte is not 0, so that 0 keeps its digit.
pub fn put_up_to_eight(out: &mut [u8], place: usize, number: u32) -> usize
    requires { (number < 100000000) × (place + 8 ≤ length out.old) }
    ensures { Behind (decimal number) 8 out.old place out.new result }
{
    let digits = digits_of((number / 10_000) as u64, (number % 10_000) as u64);
    let zeros = u64::trailing_zeros(digits + 1_152_921_504_606_846_976) / 8;
    put_eight(
        out,
        place,
        (digits + 3_472_328_296_227_680_304) >> (8 * zeros),
    );
    place + (8 - zeros as usize)
}

// A number of four digits at most, which are at hand, and a mark behind it.
pub fn put_four(out: &mut [u8], place: usize, number: u64, digits: u64, mark: u8) -> usize
    requires { (number < 10000) × ((digits ≡ word_of (four number)) × (place + 8 ≤ length out.old)) }
    ensures { Behind (decimal number ++ (mark ∷ [])) 5 out.old place out.new result }
{
    let zeros = u64::trailing_zeros(digits + 268_435_456) / 8;
    put_eight(
        out,
        place,
        (digits + 808_464_432 + 4_294_967_296 * mark as u64) >> (8 * zeros),
    );
    place + (5 - zeros as usize)
}

// A number of 32 bits has 10 digits at most. One of more than eight is put together from its end on, and copied.
pub fn put_small(out: &mut [u8], place: usize, number: u32) -> usize
    requires { place + 10 ≤ length out.old }
    ensures { Behind (decimal number) 10 out.old place out.new result }
{
    if number < 100_000_000 {
        return put_up_to_eight(out, place, number);
    }
    let mut digits = [0u8; 10];
    let at = put_before(&mut digits, 10, number);
    put_text(out, place, &digits[at..])
}
