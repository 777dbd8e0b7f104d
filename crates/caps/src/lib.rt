// Caps and what they have left. Nothing here knows of bytes, tariffs or how a price is made.
#![tactic(auto)]

ghost use Rattle.std.specs.Prelude.{◌≡◌, ◌≤◌};
ghost use Rattle.caps.specs.Clauses.{limit_of, LeftBy, RestWith, rest_here, uncapped_at, name_of};

use units::{Cap, Cents};

// An area's second-class cap and its all-classes cap, for an adult or a child.
#[derive(Clone, Copy)]
pub struct Caps {
    pub second: Cap,
    pub all: Cap,
}

// The name of a cap: its area, and 2 for a second-class cap, 1 for an all-classes cap.
#[derive(Clone, Copy)]
pub struct Name {
    pub area: u8,
    pub class: u8,
}

// What the caps looked at so far leave of a price, and the one that leaves the least.
#[derive(Clone, Copy)]
pub struct Rest {
    pub amount: Cents,
    pub name: Name,
}

// What caps took off one person's price: how much, and the area and class of the cap that left the least.
#[derive(Clone, Copy)]
pub struct Cut {
    pub reduction: Cents,
    pub area: u8,
    pub class: u8,
}

// What stands where no cap is named. Area numbers end at 31, and classes begin at 1.
pub const NO_AREA: u8 = 255;

pub const NO_CLASS: u8 = 0;

// Cents in 64 bits, among which is a number larger than any amount and any sum together.
#[derive(Clone, Copy)]
struct WideCents(u64);

const NO_LIMIT: u64 = 8_589_934_592;

// A cap as a plain number, so that what it has left is a difference, and the least of it is found without a branch.
fn limit_of(cap: Cap) -> WideCents
    ensures { result.0 ≡ limit_of cap }
{
    match cap {
        Cap::NoCap => WideCents(NO_LIMIT),
        Cap::UpTo(most) => WideCents(most.0 as u64),
    }
}

// What a cap has left over a sum: 0 if passed already.
fn left_of(cap: Cap, sum: Cents) -> WideCents
    ensures { LeftBy cap sum.0 result.0 }
{
    let limit = limit_of(cap);
    let most = limit.0;
    let spent = sum.0 as u64;
    let left = if most <= spent { 0 } else { most - spent };
    WideCents(left)
}

// A cap that leaves no more than the least so far takes the name: so of caps that leave equally little the one that is looked at last keeps it.
fn under(rest: Rest, left: WideCents, area: u8, class: u8) -> Rest
    ensures { RestWith rest left.0 area class result }
{
    let amount = rest.amount;
    if left.0 <= amount.0 as u64 {
        Rest {
            amount: Cents(left.0 as u32),
            name: Name {
                area: area,
                class: class,
            },
        }
    } else {
        rest
    }
}

// What an area's caps leave of a rest: both of them in class 2, the all-classes one in class 1. The second-class cap is looked at last.
pub fn capped_here(caps: Caps, area: u8, class: u8, second: Cents, all: Cents, rest: Rest) -> Rest
    ensures { (result ≡ rest_here caps area class second.0 all.0 rest) × (result.amount.0 ≤ rest.amount.0) }
{
    let second_cap = caps.second;
    let all_cap = caps.all;
    let low = under(rest, left_of(all_cap, all), area, 1);
    if class == 2 {
        under(low, left_of(second_cap, second), area, 2)
    } else {
        low
    }
}

// A price before any cap is looked at.
pub fn uncapped(price: Cents) -> Rest
    ensures { result ≡ uncapped_at price.0 }
{
    Rest {
        amount: price,
        name: Name {
            area: NO_AREA,
            class: NO_CLASS,
        },
    }
}

// The cap that took something off a price, once all of its caps have been looked at.
pub fn name_of(price: Cents, rest: Rest) -> Name
    ensures { result ≡ name_of price.0 rest }
{
    let amount = rest.amount;
    if amount.0 == price.0 {
        Name {
            area: NO_AREA,
            class: NO_CLASS,
        }
    } else {
        rest.name
    }
}
