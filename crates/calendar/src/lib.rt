// Stamps and minute numbers: a moment as its local date and clock time, 2000 to 2099, with the hours ahead of UTC, and as minutes since
// 2000-01-01 00:00 UTC.
// The file moments.rt has the way back, from a minute number to its date and clock time in UTC.
// Every day has 1,440 minutes. The days before each month stand as a table, one row for common and one for leap years.
#![tactic(auto)]

ghost use Rattle.std.specs.Prelude.{◌≡◌, true, false, ◌≤◌, leb};
ghost use Rattle.calendar.specs.Days.{leap, month_days, DaysBefore, DayNumber};
ghost use Rattle.calendar.specs.Clauses.{row, entry_at, from_zero, midnight_of};
ghost use Rattle.calendar.specs.Stamps.{is_date, is_clock, is_offset, is_stamp, stamp_of, last_minute, MinuteNumber};
ghost use Rattle.calendar.specs.Moments.{first_minute};

use units::{DAY, Minutes};

pub mod moments;

// The date and clock time are local; the offset is the hours that they are ahead of UTC.
#[derive(Clone, Copy)]
pub struct Stamp {
    pub year: u16,
    pub month: u8,
    pub day: u8,
    pub hour: u8,
    pub minute: u8,
    pub offset: u8,
}

// A date and clock time in UTC.
#[derive(Clone, Copy)]
pub struct Moment {
    pub year: u16,
    pub month: u8,
    pub day: u8,
    pub hour: u8,
    pub minute: u8,
}

// What the maker answers: the stamp, or that the fields are none.
#[derive(Clone, Copy)]
pub enum Made {
    Good(Stamp),
    Refused,
}

fn is_leap(year: u16) -> bool
    ensures { result ≡ leap year }
{
    (year % 4 == 0) & ((year % 100 != 0) | (year % 400 == 0))
}

fn month_days(leap_year: bool, month: u8) -> u8
    ensures { result ≡ month_days leap_year month }
{
    match month {
        2 => { if leap_year { 29 } else { 28 } }
        4 | 6 | 9 | 11 => 30,
        _ => 31,
    }
}

// Whether a day is at most its month's last. Every month has 28 days: most days need not be looked up.
fn in_month(year: u16, month: u8, day: u8) -> bool
    ensures { result ≡ leb day (month_days (leap year) month) }
{
    if day <= 28 {
        return true;
    }
    day <= month_days(is_leap(year), month)
}

pub fn is_date(year: u16, month: u8, day: u8) -> bool
    ensures { result ≡ is_date year month day }
{
    (Stamp::FIRST_YEAR <= year)
        & (year <= Stamp::LAST_YEAR)
        & (1 <= month)
        & (month <= 12)
        & (1 <= day)
        & in_month(year, month, day)
}

fn is_clock(hour: u8, minute: u8) -> bool
    ensures { result ≡ is_clock hour minute }
{
    (hour <= 23) & (minute <= 59)
}

fn is_offset(offset: u8) -> bool
    ensures { result ≡ is_offset offset }
{
    (offset == 1) | (offset == 2)
}

// Whether a moment is not before minute 0: only the first hours of 2000-01-01 are.
fn from_zero(year: u16, month: u8, day: u8, hour: u8, offset: u8) -> bool
    ensures { result ≡ from_zero year month day hour offset }
{
    (offset <= hour) | (Stamp::FIRST_YEAR < year) | (1 < month) | (1 < day)
}

// The days before each month of a common year. A row is a choice by the month, since that becomes a table in the read-only data; a constant
// array would be made anew on the stack at each use.
fn common_row(month: u8) -> u32
    requires { (1 ≤ month) × (month ≤ 12) }
    ensures { result ≡ entry_at (row false) month }
{
    match month {
        1 => 0,
        2 => 31,
        3 => 59,
        4 => 90,
        5 => 120,
        6 => 151,
        7 => 181,
        8 => 212,
        9 => 243,
        10 => 273,
        11 => 304,
        _ => 334,
    }
}

// The same of a leap year.
fn leap_row(month: u8) -> u32
    requires { (1 ≤ month) × (month ≤ 12) }
    ensures { result ≡ entry_at (row true) month }
{
    match month {
        1 => 0,
        2 => 31,
        3 => 60,
        4 => 91,
        5 => 121,
        6 => 152,
        7 => 182,
        8 => 213,
        9 => 244,
        10 => 274,
        11 => 305,
        _ => 335,
    }
}

// The days of the year that go before a month's first.
fn days_before(leap_year: bool, month: u8) -> u32
    requires { (1 ≤ month) × (month ≤ 12) }
    ensures { DaysBefore leap_year month result }
{
    if leap_year {
        leap_row(month)
    } else {
        common_row(month)
    }
}

// The days from 2000-01-01 to a date. Of the years 2000 to 2099 every fourth is a leap year, the first among them.
fn day_number(year: u16, month: u8, day: u8) -> u32
    requires { is_date year month day ≡ true }
    ensures { DayNumber year month day result }
{
    let years = (year - Stamp::FIRST_YEAR) as u32;
    let in_year = days_before(years % 4 == 0, month) + (day - 1) as u32;
    365 * years + (years + 3) / 4 + in_year
}

// The first minute of a date in UTC.
pub fn first_minute(year: u16, month: u8, day: u8) -> Minutes
    requires { is_date year month day ≡ true }
    ensures { (result.0 ≡ first_minute year month day) × (result.0 ≤ last_minute) }
{
    Minutes(DAY * day_number(year, month, day))
}

impl Stamp {
    // A stamp's bytes in a record.
    pub const SIZE: usize = 7;

    pub const FIRST_YEAR: u16 = 2000;

    pub const LAST_YEAR: u16 = 2099;
    // The bound of a book's minutes.
    pub const LAST_MINUTE: u32 = 52_595_999;

    pub fn make(year: u16, month: u8, day: u8, hour: u8, minute: u8, offset: u8) -> Made
        ensures { result ≡ stamp_of year month day hour minute offset }
    {
        if is_date(year, month, day)
            & is_clock(hour, minute)
            & is_offset(offset)
            & from_zero(year, month, day, hour, offset)
        {
            Made::Good(Stamp {
                year,
                month,
                day,
                hour,
                minute,
                offset,
            })
        } else {
            Made::Refused
        }
    }

    // The stamp of another clock time and offset on the same date, which need not be looked at again.
    pub fn on_date(self, hour: u8, minute: u8, offset: u8) -> Made
        requires { is_stamp self ≡ true }
        ensures { result ≡ stamp_of self.year self.month self.day hour minute offset }
    {
        let year = self.year;
        let month = self.month;
        let day = self.day;
        if is_clock(hour, minute) & is_offset(offset) & from_zero(year, month, day, hour, offset) {
            Made::Good(Stamp {
                year,
                month,
                day,
                hour,
                minute,
                offset,
            })
        } else {
            Made::Refused
        }
    }

    // The minutes from 2000-01-01 00:00 to the start of the stamp's date, both local.
    pub fn midnight(self) -> Minutes
        requires { is_stamp self ≡ true }
        ensures { result.0 ≡ midnight_of self }
    {
        Minutes(DAY * day_number(self.year, self.month, self.day))
    }

    // The minutes from 2000-01-01 00:00 UTC to the stamp's moment, from those to the start of its date.
    pub fn minutes_from(self, midnight: Minutes) -> Minutes
        requires { (is_stamp self ≡ true) × (midnight.0 ≡ midnight_of self) }
        ensures { MinuteNumber self result.0 }
    {
        Minutes(midnight.0 + 60 * self.hour as u32 + self.minute as u32 - 60 * self.offset as u32)
    }

    // The minutes from 2000-01-01 00:00 UTC to the stamp's moment.
    pub fn minutes(self) -> Minutes
        requires { is_stamp self ≡ true }
        ensures { MinuteNumber self result.0 }
    {
        self.minutes_from(self.midnight())
    }
}
