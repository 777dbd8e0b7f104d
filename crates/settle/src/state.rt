// A trip stated beside the book: the refusal that it meets, or its records, written while the book is only read. This is all that a quote does,
// and what settling and a posting begin with.
ghost use Rattle.std.specs.Prelude.{◌≡◌, length};
ghost use Rattle.deciding.specs.Clauses.{Ready, AllClear};
ghost use Rattle.settle.specs.Clauses.{first_end, RidesStated, TripStated};

use charging::state::state_ride;
use deciding::decide::{Decision, decide};
use deciding::refusals::Refusal;
use editions::{Editions, counts_in, end_in, start_in};
use fare::Breaking;
use fare::rides::{duration, ride_between};
use layout::Counts;
use ledger::Window;
use trip::{Earlier, Trip};
use units::Minutes;

// What stating a trip comes to: the refusal that it meets; or the bytes written, and what posting them asks. The tariff of the window's edition
// stands in the file between two places; that it is looked up once keeps settling's stack small.
#[derive(Clone, Copy)]
pub enum Stated {
    Refused(Refusal),
    Records {
        size: usize,
        window: Window,
        checkout: Minutes,
        class: u8,
        from: usize,
        to: usize,
        counts: Counts,
    },
}

// The stop at which a trip's first ride ends: where the trip is broken, or its last.
fn first_end(breaking: Breaking, last: usize) -> usize
    ensures { result ≡ first_end breaking last }
{
    match breaking {
        Breaking::Unbroken => last,
        Breaking::At(c) => c,
    }
}

// The rides of a trip that meets no refusal, one or two: their records one behind the other from the start of the statement, the second on what
// the first leaves. The answer is the bytes written. One call for both, so that stating a ride is part of this function's frame.
fn state_rides(
    tariff: &[u8],
    counts: Counts,
    book: &[u8],
    bytes: &[u8],
    trip: Trip,
    window: Window,
    breaking: Breaking,
    statement: &mut [u8],
) -> usize
    requires { AllClear tariff.now counts book.now bytes.now trip window breaking (length statement.old) }
    ensures { RidesStated tariff.now counts book.now bytes.now trip window statement.old
        statement.new result }
{
    let last = trip.stops - 1;
    let mut from: usize = 0;
    let mut to = first_end(breaking, last);
    let mut minutes = duration(trip);
    let mut earlier = Earlier::Nothing;
    let mut next: usize = 0;
    while from < last {
        let ride = ride_between(tariff, counts, bytes, trip, from, to, minutes);
        next = state_ride(tariff, counts, book, window, ride, earlier, statement, next);
        earlier = Earlier::Part(ride);
        from = to;
        to = last;
        minutes = Minutes(0);
    }
    next
}

// 5 to 12, under a faultless file, on a sound book: the one body of settling, of a quote and of a posting. The window's edition settles the trip.
pub fn state_trip(
    file: &[u8],
    editions: Editions,
    book: &[u8],
    trip: &[u8],
    statement: &mut [u8],
) -> Stated
    requires { Ready file.now editions book.now }
    ensures { TripStated file.now editions book.now trip.now statement.old statement.new result }
{
    // Borrowed anew, slices come in registers; else each caller keeps copies of them on the stack for us.
    let file = &*file;
    let book = &*book;
    let trip = &*trip;
    match decide(file, editions, book, trip, statement.len()) {
        Decision::Refused(why) => Stated::Refused(why),
        Decision::Clear(fields, window, breaking) => {
            let checkout = fields.checkout;
            let from = start_in(editions, window.edition);
            let to = end_in(file, editions, window.edition);
            let counts = counts_in(editions, window.edition);
            let size = state_rides(
                &file[from..to],
                counts,
                book,
                trip,
                fields,
                window,
                breaking,
                statement,
            );
            Stated::Records {
                size,
                window,
                checkout,
                class: fields.class,
                from,
                to,
                counts,
            }
        }
    }
}
