// What the program prints of a roll, put into an output that the caller lends and writes when it is full: no call of the system for a
// number or a line.
//
// spaced.rt  numbers behind a blank
// short.rt   a part's line, put at once where its numbers are short
// tally.rt   the records so far, and the sum of their charges
// texts.rt   header, lines, tail, and a refused tariff's one line
// turns.rt   what stands at the start of the bytes that have come, settled, counted and put
#![tactic(auto)]

mod short;
mod spaced;
pub mod tally;
pub mod texts;
pub mod turns;
