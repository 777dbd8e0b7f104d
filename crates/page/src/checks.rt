// What is refused before anything is written to a page, and where a member stands.
ghost use Rattle.std.specs.Prelude.{◌≡◌, ◌+◌, ◌≤◌, ◌<◌};
ghost use Rattle.page.specs.Pages.{places, number_right, numbers_right, only_here, numbers_once, page_right, account_of};
ghost use Rattle.page.specs.Clauses.{Looked};

use crate::{PAGE_SIZE, Spot, lowest_with, number_at};

const MOST_NUMBER: u32 = 999_999_999;

// What looking for a member comes to: 18, or whether the member is there and in which place.
#[derive(Clone, Copy)]
pub enum Account {
    WrongPage,
    Absent,
    Present(usize),
}

// A number that a member can have.
fn number_right(number: u32) -> bool
    ensures { result ≡ number_right number }
{
    (1 <= number) & (number <= MOST_NUMBER)
}

// Each stored number is one that a member can have, or 0.
fn numbers_right(page: &[u8], first: usize, count: usize) -> bool
    requires { Looked page.now first count }
    ensures { result ≡ numbers_right page.now first count }
{
    let mut right = true;
    for k in 0..count {
        right = right & (number_at(page, first + k) <= MOST_NUMBER);
    }
    right
}

// A place is free, or its number stands in no place behind it.
fn only_here(page: &[u8], end: usize, place: usize) -> bool
    requires { Looked page.now 0 end × (place < end) }
    ensures { result ≡ only_here page.now end place }
{
    let number = number_at(page, place);
    if number == 0 {
        return true;
    }
    let next = place + 1;
    match lowest_with(page, next, end - next, number) {
        Spot::Nowhere => true,
        Spot::At(_) => false,
    }
}

// No number is stored twice.
fn numbers_once(page: &[u8], first: usize, count: usize) -> bool
    requires { Looked page.now first count }
    ensures { result ≡ numbers_once page.now first count }
{
    let end = first + count;
    let mut once = true;
    for k in 0..count {
        once = once & only_here(page, end, first + k);
    }
    once
}

fn page_right(page: &[u8], first: usize, count: usize, member: u32) -> bool
    requires { first + count ≤ places }
    ensures { result ≡ page_right first count page.now member }
{
    if page.len() != PAGE_SIZE {
        return false;
    }
    number_right(member) & numbers_right(page, first, count) & numbers_once(page, first, count)
}

pub fn account_of(page: &[u8], first: usize, count: usize, member: u32) -> Account
    requires { first + count ≤ places }
    ensures { result ≡ account_of first count page.now member }
{
    if !page_right(page, first, count, member) {
        return Account::WrongPage;
    }
    match lowest_with(page, first, count, member) {
        Spot::Nowhere => Account::Absent,
        Spot::At(place) => Account::Present(place),
    }
}
