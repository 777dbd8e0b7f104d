// How a program reads and writes: bytes of a file into a room that the program lends, and out of it again.
//
// failure.rt  what is told where that fails
// input.rt    bytes read, and those kept for the next read
// output.rt   bytes written
// flow.rt     how far a run has come: its input, what its turns carry on, and what comes after one
#![tactic(auto)]

pub mod failure;
pub mod flow;
pub mod input;
pub mod output;
