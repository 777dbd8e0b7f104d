// The book: a lent slice of 5,472 bytes, read and written in place. What is added to it is charged and posted elsewhere.
//
// words.rt     where each word stands, once
// sound.rt     whether a byte string is a sound book
// zeros.rt     whether a book has any bit set
// gaps.rt      a fast way to see that all pairs are sound
// windows.rt   the window that a trip belongs to, and 10
#![tactic(auto)]

use units::Minutes;

pub mod gaps;
pub mod sound;
pub mod windows;
pub mod words;
pub mod zeros;

// The window that a trip falls into: the one that the book has open, or the next, opened at the trip's check-in; and the trips that it has
// before this one. Its edition is the one in force when it was opened.
#[derive(Clone, Copy)]
pub struct Window {
    pub current: bool,
    pub opening: Minutes,
    pub trips: u32,
    pub edition: u8,
}
