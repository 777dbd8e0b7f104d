// From a trip's bytes to its ride, or the two rides that it is broken into.
//
// rides.rt       the smallest area that contains some stops of a trip, the started kilometres between two, the ride that a whole trip is
// kilometres.rt  the least kilometres that are enough, from a guess
// parts.rt       where a trip that comes back is broken, and the rides that its two parts are
// towns.rt       whether first class is refused in a marked town

#![tactic(auto)]

mod kilometres;
pub mod parts;
pub mod rides;
pub mod towns;

// Where a trip is broken: at a change, which is a stop between the first and the last, by its place in the trip; or nowhere.
#[derive(Clone, Copy)]
pub enum Breaking {
    Unbroken,
    At(usize),
}
