// Deciding: the table of refusals from 4 on, whose first row that holds decides. Nothing is written here.
//
// refusals.rt the refusals by their names, with their numbers
// ready.rt    file and book, before any trip
// groups.rt   the table's rows in five groups
// decide.rt   the groups one after another: what is decided of a trip

#![tactic(auto)]

pub mod decide;
pub mod groups;
pub mod ready;
pub mod refusals;
