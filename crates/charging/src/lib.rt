// What each of a party is charged, under the caps of the ride's areas, written into the ride's record at once. Nothing here writes to a book.
//
// limits.rt  an area's caps, and the areas whose caps a ride has
// rest.rt    what the caps leave of a price, and what they took off
// alike.rt   a fast way for riders who have travelled together
// state.rt   a ride's record: each of the party charged and written down
#![tactic(auto)]

use caps::Cut;
use units::Cents;

pub mod alike;
pub mod limits;
pub mod rest;
pub mod state;

// Riders who are charged alike, adults or children: `count` of them from number `first` on.
#[derive(Clone, Copy)]
pub struct Riders {
    pub child: bool,
    pub first: usize,
    pub count: usize,
}

// What a person is charged, and what caps took off.
#[derive(Clone, Copy)]
pub struct Person {
    pub amount: Cents,
    pub cut: Cut,
}
