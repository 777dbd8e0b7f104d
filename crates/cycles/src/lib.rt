// Bicycles' rules.
//
// terms.rt     what an area asks of bicycles, read once for the ride's own
// bicycles.rt  a bicycle's new covering area, its charge and its payments
// found.rt     a fast way for bicycles that have travelled together, to their charge and to their words after a ride
#![tactic(auto)]

pub mod bicycles;
pub mod found;
pub mod terms;
