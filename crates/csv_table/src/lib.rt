// What is printed of a statement: a table of comma-separated values, put into an output that the caller lends and writes when it is full.
//
// columns.rt  a comma and a number; a moment of UTC
// rows.rt     header, the line of a charge, and that of a refused record
// records.rt  all lines of a record
// turns.rt    what stands at the start of the bytes that have come, read and put
#![tactic(auto)]

mod columns;
mod records;
pub mod rows;
pub mod turns;
