// What is decided before anything is written: the table's rows from 5 on, group by group. 1 to 4 go before, where the file is read and the
// book is looked through.
ghost use Rattle.std.specs.Prelude.{◌≡◌};
ghost use Rattle.deciding.specs.Deciding.{trip_with, decided_under};
ghost use Rattle.deciding.specs.Clauses.{Ready};

use crate::groups::{
    Fields, Formed, Opened, Placed, Roomed, Span, Timed, clock_rows, edition_rows, room_rows,
    tariff_rows, trip_rows,
};
use crate::refusals::Refusal;
use editions::{Editions, counts_in, tariff_in};
use fare::Breaking;
use ledger::Window;
use trip::Trip;

// The first refusal whose row holds; or that none does, and what writing needs.
#[derive(Clone, Copy)]
pub enum Decision {
    Refused(Refusal),
    Clear(Trip, Window, Breaking),
}

// The trip of these fields and times.
fn trip_of(fields: Fields, span: Span) -> Trip
    ensures { result ≡ trip_with fields span }
{
    let checkin = span.checkin;
    let checkout = span.checkout;
    let party = fields.party;
    Trip {
        checkin,
        checkout,
        class: fields.class,
        level: fields.level,
        party,
        stops: fields.stops,
    }
}

// Under a faultless file, on a sound book. From 7 on it is the window's edition that is asked.
pub fn decide(file: &[u8], editions: Editions, book: &[u8], trip: &[u8], room: usize) -> Decision
    requires { Ready file.now editions book.now }
    ensures { result ≡ decided_under file.now editions book.now trip.now room }
{
    let fields = match trip_rows(trip) {
        Formed::Refused(why) => return Decision::Refused(why),
        Formed::As(fields) => fields,
    };
    let span = match clock_rows(book, trip, fields) {
        Timed::Refused(why) => return Decision::Refused(why),
        Timed::Over(span) => span,
    };
    let window = match edition_rows(editions, book, span) {
        Opened::Refused(why) => return Decision::Refused(why),
        Opened::In(window) => window,
    };
    let tariff = tariff_in(file, editions, window.edition);
    let counts = counts_in(editions, window.edition);
    let breaking = match tariff_rows(tariff, counts, trip, fields) {
        Placed::Refused(why) => return Decision::Refused(why),
        Placed::Broken(breaking) => breaking,
    };
    let party = fields.party;
    match room_rows(window, breaking, party, room) {
        Roomed::Refused(why) => Decision::Refused(why),
        Roomed::Enough => Decision::Clear(trip_of(fields, span), window, breaking),
    }
}
