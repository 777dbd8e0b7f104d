// The four units that the rules count in, caps on an amount, and the two roundings that a price is made with.
// All money is whole cents. A count in one unit is never taken where another belongs.
//
// levels.rt  the ticket levels, and what each picks of five amounts
#![tactic(auto)]

ghost use Rattle.std.specs.Prelude.{◌≡◌, ◌≤◌, ◌<◌};
ghost use Rattle.units.specs.Caps.{Capped};
ghost use Rattle.units.specs.Rounding.{divided_up, hundredths_of, roundable, Raised, Reduced, Started};

pub mod levels;

#[derive(Clone, Copy)]
pub struct Cents(pub u32);

#[derive(Clone, Copy)]
pub struct Km(pub u32);

#[derive(Clone, Copy)]
pub struct Metres(pub u32);

#[derive(Clone, Copy)]
pub struct Minutes(pub u32);

// Every day has 1,440 minutes.
pub const DAY: u32 = 1_440;

// No price is above this.
pub const MOST_PRICE: u32 = 3_790_000;

// A limit on an amount, where there is one.
#[derive(Clone, Copy)]
pub enum Cap {
    NoCap,
    UpTo(Cents),
}

// The smaller of an amount and a cap.
pub fn capped(amount: Cents, cap: Cap) -> Cents
    ensures { Capped amount.0 cap result.0 }
{
    match cap {
        Cap::NoCap => amount,
        Cap::UpTo(most) => { if amount.0 <= most.0 { amount } else { most } }
    }
}

// n ÷ d, rounded up. Everything that is rounded is rounded so, here or just below.
fn divided_up(n: u32, d: u32) -> u32
    requires { 0 < d }
    ensures { result ≡ divided_up n d }
{
    let whole = n / d;
    if n % d == 0 { whole } else { whole + 1 }
}

// amount × hundredths ÷ 100, rounded up: what both percentages come to. By a numeral a quotient is no division, and with 99 more it is rounded
// up without a remainder.
fn hundredths_of(amount: Cents, hundredths: u32) -> Cents
    requires { (amount.0 ≤ roundable) × (hundredths ≤ 200) }
    ensures { result.0 ≡ hundredths_of hundredths amount.0 }
{
    Cents((amount.0 * hundredths + 99) / 100)
}

// What first class costs: × (100 + percent) ÷ 100, rounded up.
pub fn raised(amount: Cents, percent: u8) -> Cents
    requires { (amount.0 ≤ roundable) × (percent ≤ 100) }
    ensures { Raised amount.0 percent result.0 }
{
    hundredths_of(amount, 100 + percent as u32)
}

// What a child pays: × (100 − percent) ÷ 100, rounded up.
pub fn reduced(amount: Cents, percent: u8) -> Cents
    requires { (amount.0 ≤ roundable) × (percent ≤ 100) }
    ensures { Reduced amount.0 percent result.0 }
{
    hundredths_of(amount, 100 - percent as u32)
}

// Started periods: duration ÷ validity, rounded up, at least 1. Most trips end within the validity, and nothing is divided.
pub fn started_periods(duration: Minutes, validity: Minutes) -> u32
    requires { 0 < validity.0 }
    ensures { Started duration.0 validity.0 result }
{
    if duration.0 <= validity.0 {
        return 1;
    }
    divided_up(duration.0, validity.0)
}
