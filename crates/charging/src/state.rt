// A ride stated: its record at a place of the statement, each of the party charged and written down at once. The book is only read; in a new
// window its sums and bicycles count as none.
//
// Where an earlier part of the trip goes before the ride, the ride is charged on what that part leaves, though the book does not have it yet:
// what a rider paid for it stands in its record, right before this one, and is added to the sums as they are read.
ghost use Rattle.std.specs.Prelude.{◌≡◌, ◌+◌, ◌*◌, ◌≤◌, length};
ghost use Rattle.statement.specs.Record.{charge_size};
ghost use Rattle.charging.specs.Clauses.{
  Ridden,
  Stateable,
  RideWritten,
  paid_in,
  PaidThere,
  RidersStateable,
  RidersWritten,
  BicyclesWritten,
};

use crate::alike::{Last, NO_RIDER, charge_alike};
use crate::limits::chain_of;
use crate::{Person, Riders};
use areas::area;
use caps::{Cut, NO_AREA, NO_CLASS};
use cycles::found::{Found, NEVER_FOUND, charge_found};
use cycles::terms::terms_of;
use layout::Counts;
use ledger::Window;
use ledger::windows::get_in;
use ledger::words::{FIRST_CHILD, cover, payments};
use prices::price;
use statement::record_size;
use statement::writing::{write_charge, write_person, write_ride};
use trip::{Earlier, Ride};
use units::Cents;
use wire::four_at;

// What a rider paid for an earlier part: it stands as far before the rider's own charge as a record is long, since both parts have one party.
fn paid_before(statement: &[u8], earlier: Earlier, place: usize, size: usize) -> Cents
    requires { PaidThere earlier statement.now place size }
    ensures { result.0 ≡ paid_in earlier statement.now place size }
{
    match earlier {
        Earlier::Nothing => Cents(0),
        Earlier::Part(_) => Cents(four_at(statement, place - size)),
    }
}

// Riders charged and written down, from a place of the statement on. The answer is the place behind the last.
fn state_riders(
    tariff: &[u8],
    counts: Counts,
    book: &[u8],
    current: bool,
    ride: Ride,
    riders: Riders,
    earlier: Earlier,
    statement: &mut [u8],
    place: usize,
) -> usize
    requires { RidersStateable tariff.now counts book.now current ride riders earlier statement.old place }
    ensures { RidersWritten tariff.now counts book.now current ride riders earlier
        statement.old place statement.new result }
{
    let count = riders.count;
    if count == 0 {
        return place;
    }
    let child = riders.child;
    let first = riders.first;
    let class = ride.class;
    let at = ride.area;
    let party = ride.party;
    let size = record_size(party);
    let fare = price(area(tariff, counts, at), ride, child);
    let chain = chain_of(tariff, counts, at, child, earlier);
    let mut last = Last {
        next: NO_RIDER,
        paid: 0,
        charge: Person {
            amount: fare,
            cut: Cut {
                reduction: Cents(0),
                area: NO_AREA,
                class: NO_CLASS,
            },
        },
    };
    let mut next = place;
    for i in 0..count {
        let paid = paid_before(statement, earlier, next, size);
        let charge = charge_alike(book, current, first + i, chain, class, paid, fare, last);
        last = Last {
            next: first + i + 1,
            paid: paid.0,
            charge,
        };
        let amount = charge.amount;
        let cut = charge.cut;
        next = write_person(statement, next, amount, cut);
    }
    next
}

// The party's bicycles charged and written down, from a place of the statement on. The answer is the place behind the last.
fn state_bicycles(
    tariff: &[u8],
    counts: Counts,
    book: &[u8],
    current: bool,
    ride: Ride,
    earlier: Earlier,
    statement: &mut [u8],
    place: usize,
) -> usize
    requires { Ridden tariff.now counts book.now current ride earlier × (place + charge_size * ride.party.bicycles ≤ length statement.old) }
    ensures { BicyclesWritten tariff.now counts book.now current ride earlier
        statement.old place statement.new result }
{
    let at = ride.area;
    let party = ride.party;
    let count = party.bicycles as usize;
    if count == 0 {
        return place;
    }
    let own = terms_of(tariff, counts, at);
    let mut last = Found {
        cover: NEVER_FOUND,
        paid: Cents(0),
        amount: Cents(0),
    };
    let mut next = place;
    for i in 0..count {
        let found = get_in(book, current, cover(i)) as usize;
        let before = Cents(get_in(book, current, payments(i)));
        last = charge_found(tariff, counts, earlier, own, at, last, found, before);
        let amount = last.amount;
        next = write_charge(statement, next, amount);
    }
    next
}

// A ride stated, in a window of the book. The answer is the place behind its record.
pub fn state_ride(
    tariff: &[u8],
    counts: Counts,
    book: &[u8],
    window: Window,
    ride: Ride,
    earlier: Earlier,
    statement: &mut [u8],
    place: usize,
) -> usize
    requires { Stateable tariff.now counts book.now window ride earlier statement.old place }
    ensures { RideWritten tariff.now counts book.now window ride earlier
        statement.old place statement.new result }
{
    // Borrowed anew, a slice comes in a register; else the caller keeps a copy of it on the stack for us.
    let tariff = &*tariff;
    let book = &*book;
    let current = window.current;
    let party = ride.party;
    let adults = 1 + party.adults as usize;
    let children = party.children as usize;
    let opening = window.opening;
    let mut next = write_ride(statement, place, opening, ride);
    // One call for both groups, so that their frames are one.
    let mut riders = Riders {
        child: false,
        first: 0,
        count: adults,
    };
    for _ in 0..2usize {
        next = state_riders(
            tariff, counts, book, current, ride, riders, earlier, statement, next,
        );
        riders = Riders {
            child: true,
            first: FIRST_CHILD,
            count: children,
        };
    }
    state_bicycles(
        tariff, counts, book, current, ride, earlier, statement, next,
    )
}
