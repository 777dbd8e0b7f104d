// The way back from a minute number to its moment, a date and clock time in UTC.
ghost use Rattle.std.specs.Prelude.{◌≤◌, ◌<◌};
ghost use Rattle.calendar.specs.Days.{days_of_months};
ghost use Rattle.calendar.specs.Stamps.{last_minute};
ghost use Rattle.calendar.specs.Moments.{MonthOf, MomentOf};

use crate::{Moment, Stamp, days_before, is_leap};
use units::DAY;

// The month of a day in its year, the day counted from 0. No month is longer than 32 days, and twelve months fall behind twelve times 32 days by
// less than a month: so the day's 32 days name its month or the one before it.
fn month_of(leap_year: bool, day: u32) -> u8
    requires { day < days_of_months leap_year 12 }
    ensures { MonthOf leap_year day result }
{
    let month = (day / 32) as u8 + 1;
    if month == 12 {
        return 12;
    }
    if days_before(leap_year, month + 1) <= day {
        month + 1
    } else {
        month
    }
}

// The moment of a minute number. From 2000 to 2099 four years have 1,461 days, and the first of the four is the leap year.
pub fn moment_of(minute: u32) -> Moment
    requires { minute ≤ last_minute }
    ensures { MomentOf minute result }
{
    let days = minute / DAY;
    let years = 4 * days / 1_461;
    let in_year = days - (365 * years + (years + 3) / 4);
    let year = Stamp::FIRST_YEAR + years as u16;
    let leap_year = is_leap(year);
    let month = month_of(leap_year, in_year);
    let in_month = in_year - days_before(leap_year, month);
    let in_day = minute % DAY;
    Moment {
        year,
        month,
        day: in_month as u8 + 1,
        hour: (in_day / 60) as u8,
        minute: (in_day % 60) as u8,
    }
}
