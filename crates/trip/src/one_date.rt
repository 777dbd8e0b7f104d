// Check-in and check-out on one date: most trips end on the date on which they start. The check-out's stamp is then made on the check-in's date,
// which is known to be one, and the days up to that date are counted once.
ghost use Rattle.std.specs.Prelude.{◌≡◌, true, ◌≤◌, length};
ghost use Rattle.trip.specs.Record.{trip_size};
ghost use Rattle.trip.specs.Clauses.{times_of};
ghost use Rattle.trip.specs.OneDate.{one_date};

use crate::{CHECK_IN, CHECK_OUT, Times, stamp_at};
use calendar::Made;
use wire::{one_at, two_at};

// Whether both stamps have the same year, month and day, whatever they are.
pub fn is_one_date(trip: &[u8]) -> bool
    requires { trip_size 0 ≤ length trip.now }
    ensures { result ≡ one_date trip.now }
{
    (two_at(trip, CHECK_IN) == two_at(trip, CHECK_OUT))
        & (one_at(trip, CHECK_IN + 2) == one_at(trip, CHECK_OUT + 2))
        & (one_at(trip, CHECK_IN + 3) == one_at(trip, CHECK_OUT + 3))
}

// Check-in and check-out of such a trip, where both stamps are right.
pub fn times_on_date(trip: &[u8]) -> Times
    requires { (trip_size 0 ≤ length trip.now) × (one_date trip.now ≡ true) }
    ensures { result ≡ times_of trip.now }
{
    let Made::Good(first) = stamp_at(trip, CHECK_IN) else {
        return Times::NoTimes;
    };
    let hour = one_at(trip, CHECK_OUT + 4);
    let minute = one_at(trip, CHECK_OUT + 5);
    let offset = one_at(trip, CHECK_OUT + 6);
    let Made::Good(last) = first.on_date(hour, minute, offset) else {
        return Times::NoTimes;
    };
    let midnight = first.midnight();
    Times::Of(first.minutes_from(midnight), last.minutes_from(midnight))
}
