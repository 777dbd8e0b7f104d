// The window opened, the charges added to the sums, the bicycles' covering areas and payments: all that is ever written to a book. Of a ride
// this reads what its record says.
#![tactic(auto)]

ghost use Rattle.std.specs.Prelude.{◌≡◌, ◌≤◌, ◌<◌, length};
ghost use Rattle.layout.specs.Scan.{Read};
ghost use Rattle.ledger.specs.Words.{book_size, fresh_book};
ghost use Rattle.ledger.specs.Windows.{in_window, opened};
ghost use Rattle.cycles.specs.Bicycles.{cover_bicycles};
ghost use Rattle.charging.specs.After.{add_here};
ghost use Rattle.posting.specs.Clauses.{
  FreshOrUsed,
  AddingHere,
  WayOf,
  AddingUp,
  add_along,
  Adding,
  RidersPosted,
  Covering,
  PostableAt,
  PostedAt,
};

use areas::{level, parent};
use cycles::bicycles::Words;
use cycles::found::{Changed, NEVER_FOUND, words_found};
use cycles::terms::terms_of;
use layout::Counts;
use ledger::Window;
use ledger::words::{
    EDITION, FIRST_CHILD, LAST_OUT, OPENING, SIZE, TRIPS, cover, get, pair, payments, put,
};
use statement::reading::{adults_at, area_at, bicycles_at, children_at};
use statement::{CHARGE, CUT, HEAD};
use units::{Cents, Minutes};
use wire::four_at;

// All sums and bicycles back to none.
fn clear(book: &mut [u8])
    requires { length book.old ≡ book_size }
    ensures { book.new ≡ fresh_book }
{
    for i in 0..SIZE {
        book[i] = 0;
    }
}

// The trip's window: cleared if it is new, unless the book is fresh and there is nothing to clear; word 0 the trips with this one, word 1
// the opening, word 2 the check-out, and the last its edition.
fn open_window(book: &mut [u8], window: Window, checkout: Minutes)
    requires { (length book.old ≡ book_size) × (FreshOrUsed book.old × (window.trips ≤ 255)) }
    ensures { book.new ≡ opened window checkout.0 (in_window window.current book.old) }
{
    if !window.current & (get(book, TRIPS) != 0) {
        clear(book);
    }
    let opening = window.opening;
    put(book, TRIPS, window.trips + 1);
    put(book, OPENING, opening.0);
    put(book, LAST_OUT, checkout.0);
    put(book, EDITION, window.edition as u32);
}

// A charge added to a rider's sums in one area: in all classes, and in second class if that is the class.
fn add_here(book: &mut [u8], rider: usize, class: u8, at: usize, amount: Cents)
    requires { AddingHere book.old rider at amount.0 }
    ensures { book.new ≡ add_here book.old rider class at amount.0 }
{
    let cents = amount.0;
    let place = pair(rider, at);
    if class == 2 {
        let second = get(book, place) + cents;
        put(book, place, second);
    }
    let all = get(book, place + 1) + cents;
    put(book, place + 1, all);
}

// The areas in whose sums a ride's charges count: its own and, as its level says, the one above it and the state, which is area 0. They are the
// same for each rider, so they are read off the tariff once.
#[derive(Clone, Copy)]
pub struct Way {
    pub own: usize,
    pub above: usize,
    pub top: usize,
    pub level: u8,
}

fn way_of(tariff: &[u8], counts: Counts, at: usize) -> Way
    requires { Read tariff.now counts × (at < counts.areas) }
    ensures { WayOf tariff.now counts at result }
{
    Way {
        own: at,
        above: parent(tariff, counts, at),
        top: 0,
        level: level(tariff, counts, at),
    }
}

// A charge added to a rider's sums in an area and in every area above it.
fn add_up(book: &mut [u8], rider: usize, class: u8, way: Way, amount: Cents)
    requires { AddingUp book.old rider way amount.0 }
    ensures { book.new ≡ add_along book.old rider class way amount.0 }
{
    let level = way.level;
    add_here(book, rider, class, way.own, amount);
    if level == 0 {
        return;
    }
    add_here(book, rider, class, way.above, amount);
    if level == 1 {
        return;
    }
    add_here(book, rider, class, way.top, amount);
}

// The charges of `count` riders from number `first` on, which stand one behind the other from a place of the statement on, each with its cut. The
// answer is the place behind the last.
fn add_riders(
    tariff: &[u8],
    counts: Counts,
    book: &mut [u8],
    at: usize,
    class: u8,
    first: usize,
    count: usize,
    statement: &[u8],
    place: usize,
) -> usize
    requires { Adding tariff.now counts book.old at first count statement.now place }
    ensures { RidersPosted tariff.now counts book.old class at first count statement.now place book.new result }
{
    if count == 0 {
        return place;
    }
    let way = way_of(tariff, counts, at);
    let mut next = place;
    for i in 0..count {
        let amount = Cents(four_at(statement, next));
        add_up(book, first + i, class, way, amount);
        next = next + CHARGE + CUT;
    }
    next
}

// The new covering areas of the first `count` bicycles, and their payments. A bicycle whose words are those of the one before it is given the same.
fn cover_bicycles(tariff: &[u8], counts: Counts, book: &mut [u8], at: usize, count: usize)
    requires { Covering tariff.now counts book.old at count }
    ensures { book.new ≡ cover_bicycles tariff.now counts at count book.old }
{
    if count == 0 {
        return;
    }
    let own = terms_of(tariff, counts, at);
    let mut last = Changed {
        cover: NEVER_FOUND,
        paid: Cents(0),
        words: Words {
            cover: 0,
            paid: Cents(0),
        },
    };
    for i in 0..count {
        let place = cover(i);
        let old = get(book, place) as usize;
        let paying = payments(i);
        let before = Cents(get(book, paying));
        last = words_found(tariff, counts, own, at, last, old, before);
        let after = last.words;
        put(book, place, after.cover as u32);
        let paid = after.paid;
        put(book, paying, paid.0);
    }
}

// The book after a ride, of which the record at a place of the statement says the area, the party and the charges: its window, its riders' sums
// and its bicycles. The answer is the place behind the record.
pub fn post(
    tariff: &[u8],
    counts: Counts,
    book: &mut [u8],
    window: Window,
    checkout: Minutes,
    class: u8,
    statement: &[u8],
    place: usize,
) -> usize
    requires { PostableAt tariff.now counts book.old window class statement.now place }
    ensures { PostedAt tariff.now counts book.old window checkout class statement.now place book.new result }
{
    // Borrowed anew, and one call for both groups, for the caller's stack: as where they are charged.
    let statement = &*statement;
    let at = area_at(statement, place) as usize;
    let adults = 1 + adults_at(statement, place) as usize;
    let children = children_at(statement, place) as usize;
    let bicycles = bicycles_at(statement, place) as usize;
    open_window(book, window, checkout);
    let mut next = place + HEAD;
    let mut first: usize = 0;
    let mut count = adults;
    for _ in 0..2usize {
        next = add_riders(
            tariff, counts, book, at, class, first, count, statement, next,
        );
        first = FIRST_CHILD;
        count = children;
    }
    cover_bicycles(tariff, counts, book, at, bicycles);
    next + CHARGE * bicycles
}
