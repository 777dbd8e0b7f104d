// A page's places: twelve, each a member's number in 4 bytes, then the book. What is said of them is said of some that follow each other,
// `count` of them from `first` on. Nothing here knows a tariff or a trip.
//
// checks.rt  what is refused before anything else of the page is looked at, and where a member stands; only reads
// clear.rt   a place cleared, or written for a new member
#![tactic(auto)]

ghost use Rattle.std.specs.Prelude.{◌≡◌};
ghost use Rattle.wire.specs.Number.{Number};
ghost use Rattle.page.specs.Pages.{start_of, lowest_with};
ghost use Rattle.page.specs.Clauses.{Looked, OnPage};

use ledger::words::SIZE;
use wire::four_at;

pub mod checks;
pub mod clear;

pub const NUMBER_SIZE: usize = 4;

pub const PLACE_SIZE: usize = NUMBER_SIZE + SIZE;

pub const PLACES: usize = 12;

pub const PAGE_SIZE: usize = PLACES * PLACE_SIZE;

// The first of some places with a number, or none.
#[derive(Clone, Copy)]
pub enum Spot {
    Nowhere,
    At(usize),
}

// A place's number; 0 marks a free place.
pub fn number_at(page: &[u8], place: usize) -> u32
    requires { OnPage page.now place }
    ensures { Number 4 page.now (start_of place) result }
{
    four_at(page, place * PLACE_SIZE)
}

// The lowest of some places in which a number stands; with 0 the lowest free one.
pub fn lowest_with(page: &[u8], first: usize, count: usize, number: u32) -> Spot
    requires { Looked page.now first count }
    ensures { result ≡ lowest_with page.now first count number }
{
    for place in first..first + count {
        if number_at(page, place) == number {
            return Spot::At(place);
        }
    }
    Spot::Nowhere
}
