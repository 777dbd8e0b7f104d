// The table's rows from 5 on in five groups: the trip's own, those of clock and book, that of the window's edition, that edition's tariff's, and
// those of room. A group answers the first of its refusals that holds, each an early return; or what it has found on the way.
ghost use Rattle.std.specs.Prelude.{◌≡◌, true, ◌≤◌, length};
ghost use Rattle.layout.specs.Scan.{Read};
ghost use Rattle.ledger.specs.Words.{book_size};
ghost use Rattle.deciding.specs.Refusals.{sound_in};
ghost use Rattle.deciding.specs.Deciding.{rides_in, records_size, formed_by, placed_by, timed_by, opened_by, roomed_by};
ghost use Rattle.deciding.specs.Clauses.{WellFormed};

use crate::refusals::Refusal;
use editions::{Editions, in_force};
use fare::Breaking;
use fare::parts::break_of;
use fare::towns::town_refuses;
use layout::Counts;
use ledger::Window;
use ledger::windows::{too_early, window_of};
use statement::record_size;
use trip::{
    Party, Shape, Times, class_at, in_order, is_mistap, level_at, party_at, party_right,
    stops_known, times_of, whole_trip,
};
use units::Minutes;

// What a trip record says besides its stamps.
#[derive(Clone, Copy)]
pub struct Fields {
    pub class: u8,
    pub level: u8,
    pub party: Party,
    pub stops: usize,
}

#[derive(Clone, Copy)]
pub enum Formed {
    Refused(Refusal),
    As(Fields),
}

#[derive(Clone, Copy)]
pub enum Placed {
    Refused(Refusal),
    Broken(Breaking),
}

// From check-in to check-out.
#[derive(Clone, Copy)]
pub struct Span {
    pub checkin: Minutes,
    pub checkout: Minutes,
}

#[derive(Clone, Copy)]
pub enum Timed {
    Refused(Refusal),
    Over(Span),
}

#[derive(Clone, Copy)]
pub enum Opened {
    Refused(Refusal),
    In(Window),
}

#[derive(Clone, Copy)]
pub enum Roomed {
    Refused(Refusal),
    Enough,
}

// The trip's own: 5 and 6.
pub fn trip_rows(trip: &[u8]) -> Formed
    ensures { result ≡ formed_by trip.now }
{
    let Shape::Stops(stops) = whole_trip(trip) else {
        return Formed::Refused(Refusal::NoTrip);
    };
    let class = class_at(trip, 0);
    let level = level_at(trip, 0);
    let party = party_at(trip, 0);
    if !party_right(class, level, party, stops) {
        return Formed::Refused(Refusal::WrongParty);
    }
    Formed::As(Fields {
        class,
        level,
        party,
        stops,
    })
}

// Those of clock and book: 8, 9, 17 and 10.
pub fn clock_rows(book: &[u8], trip: &[u8], fields: Fields) -> Timed
    requires { (length book.now ≡ book_size) × WellFormed trip.now fields }
    ensures { result ≡ timed_by book.now trip.now }
{
    let stops = fields.stops;
    let Times::Of(checkin, checkout) = times_of(trip) else {
        return Timed::Refused(Refusal::WrongStamp);
    };
    if !in_order(checkin, checkout) {
        return Timed::Refused(Refusal::WrongOrder);
    }
    if is_mistap(trip, stops, checkin, checkout) {
        return Timed::Refused(Refusal::Mistap);
    }
    if too_early(book, checkin) {
        return Timed::Refused(Refusal::TooEarly);
    }
    Timed::Over(Span { checkin, checkout })
}

// That of the window's edition: 22. The trip's window is the open one with its edition, or a new one under the edition in force at the check-in.
pub fn edition_rows(editions: Editions, book: &[u8], span: Span) -> Opened
    requires { sound_in editions book.now ≡ true }
    ensures { result ≡ opened_by editions book.now span }
{
    let checkin = span.checkin;
    let checkout = span.checkout;
    let window = window_of(book, checkin, checkout, in_force(editions, checkin));
    if window.edition == 0 {
        return Opened::Refused(Refusal::NoEdition);
    }
    Opened::In(window)
}

// The tariff's, which is the window's edition: 7, and the town's 6.
pub fn tariff_rows(tariff: &[u8], counts: Counts, trip: &[u8], fields: Fields) -> Placed
    requires { Read tariff.now counts × WellFormed trip.now fields }
    ensures { result ≡ placed_by tariff.now counts trip.now }
{
    let stops = fields.stops;
    let class = fields.class;
    if !stops_known(trip, stops, counts.stops as usize) {
        return Placed::Refused(Refusal::UnknownStop);
    }
    let breaking = break_of(tariff, counts, trip, stops);
    if town_refuses(tariff, counts, trip, stops, class, breaking) {
        return Placed::Refused(Refusal::NoFirstClass);
    }
    Placed::Broken(breaking)
}

// How many rides a trip is charged as.
fn rides_in(breaking: Breaking) -> u32
    ensures { (result ≡ rides_in breaking) × (result ≤ 2) }
{
    match breaking {
        Breaking::Unbroken => 1,
        Breaking::At(_) => 2,
    }
}

// The bytes of their records, which are alike: all have the trip's party.
fn records_size(breaking: Breaking, party: Party) -> usize
    ensures { result ≡ records_size breaking party }
{
    match breaking {
        Breaking::Unbroken => record_size(party),
        Breaking::At(_) => 2 * record_size(party),
    }
}

// Those of room: 11 in the window, 12 in the statement.
pub fn room_rows(window: Window, breaking: Breaking, party: Party, room: usize) -> Roomed
    requires { window.trips ≤ 256 }
    ensures { result ≡ roomed_by window breaking party room }
{
    if 256 < window.trips + rides_in(breaking) {
        return Roomed::Refused(Refusal::FullWindow);
    }
    if room < records_size(breaking, party) {
        return Roomed::Refused(Refusal::NoRoom);
    }
    Roomed::Enough
}
