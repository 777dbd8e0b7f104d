// A page of accounts: members are added, settled and closed on some of its places that follow each other, `count` of them from `first` on; two
// associations have six each.
//
// associations.rt  the functions for an association, on its own places
//
// Decide first, write last: a refusal changes no byte. Nothing is copied: settling is lent the book where it stands on the page.
#![tactic(auto)]

ghost use Rattle.std.specs.Prelude.{◌≡◌, ◌+◌, ◌≤◌};
ghost use Rattle.editions.specs.Reading.{ReadFile};
ghost use Rattle.settle.specs.declared.Answer.TheVariants.{Refused};
ghost use Rattle.page.specs.Pages.{places, added, closed};
ghost use Rattle.page.specs.Clauses.{OnPage};
ghost use Rattle.accounts.specs.Clauses.{ChangeTold, PlaceSettled, FoundSettled};

use editions::Editions;
use ledger::words::SIZE;
use page::checks::{Account, account_of};
use page::clear::{clear_place, fill_place};
use page::{NUMBER_SIZE, PLACE_SIZE, Spot, lowest_with};
use settle::{Answer, settle_under};

pub mod associations;

// The page of the wrong length, a number outside its range or stored twice; a member who is not there, or is already; no free place.
const WRONG_PAGE: u8 = 18;

const WRONG_MEMBER: u8 = 19;

const NO_PLACE: u8 = 20;

fn refuse(number: u8) -> Answer
    ensures { result ≡ Refused number 0 }
{
    Answer::Refused { number, place: 0 }
}

// Adds a member: the number and a fresh book in the lowest free place. 18, 19, 20.
pub fn add(page: &mut [u8], first: usize, count: usize, member: u32) -> Answer
    requires { first + count ≤ places }
    ensures { ChangeTold (added first count page.old member) page.old page.new result }
{
    match account_of(page, first, count, member) {
        Account::WrongPage => refuse(WRONG_PAGE),
        Account::Present(_) => refuse(WRONG_MEMBER),
        Account::Absent => match lowest_with(page, first, count, 0) {
            Spot::Nowhere => refuse(NO_PLACE),
            Spot::At(place) => {
                fill_place(page, place, member);
                Answer::Written(PLACE_SIZE)
            }
        },
    }
}

// Closes a member's account: the whole place is cleared. 18, 19.
pub fn close(page: &mut [u8], first: usize, count: usize, member: u32) -> Answer
    requires { first + count ≤ places }
    ensures { ChangeTold (closed first count page.old member) page.old page.new result }
{
    match account_of(page, first, count, member) {
        Account::WrongPage => refuse(WRONG_PAGE),
        Account::Absent => refuse(WRONG_MEMBER),
        Account::Present(place) => {
            clear_place(page, place);
            Answer::Written(PLACE_SIZE)
        }
    }
}

// 4 to 12 on a place's book, lent where it stands.
fn settle_at(
    file: &[u8],
    editions: Editions,
    page: &mut [u8],
    place: usize,
    trip: &[u8],
    statement: &mut [u8],
) -> Answer
    requires { ReadFile file.now editions × OnPage page.old place }
    ensures { PlaceSettled file.now editions page.old place trip.now
        statement.old page.new statement.new result }
{
    let start = place * PLACE_SIZE + NUMBER_SIZE;
    let end = start + SIZE;
    settle_under(file, editions, &mut page[start..end], trip, statement)
}

// 18, 19, then 4 to 12: under a faultless file.
fn settle_found(
    file: &[u8],
    editions: Editions,
    page: &mut [u8],
    first: usize,
    count: usize,
    member: u32,
    trip: &[u8],
    statement: &mut [u8],
) -> Answer
    requires { ReadFile file.now editions × (first + count ≤ places) }
    ensures { FoundSettled file.now editions first count page.old member trip.now
        statement.old page.new statement.new result }
{
    match account_of(page, first, count, member) {
        Account::WrongPage => refuse(WRONG_PAGE),
        Account::Absent => refuse(WRONG_MEMBER),
        Account::Present(place) => settle_at(file, editions, page, place, trip, statement),
    }
}
