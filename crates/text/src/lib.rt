// Words and numbers in decimal, put together in a room of a fixed size. Whatever is printed is put together of these.
//
// output.rt  what was put so far, and each piece that is put behind it: whatever is printed here is put there
// behind.rt  words and numbers, behind a place of a slice
// fours.rt   numbers of 32 bits, behind a place
// digits.rt  numbers in decimal, in front of a place
#![tactic(auto)]

pub mod behind;
pub mod digits;
pub mod fours;
pub mod output;
