// An area's caps at once: the trip cap's five fields and the day cap, and in kind 8 the child tickets and the bicycle price, stand side by
// side, and are taken as two words of eight bytes each.
//
// Why it is right: what is below 2^15 is not above 60,000, so an amount is right where its upper bit is clear, and a field that is not used
// where all its bits are. The day cap is taken with 1 added, so that the one which means none, all bits set, is 0. Amounts from 2^15 on may
// be right too: of them, as of whatever is wrong, nothing is said, and the loop over the records (lib.rt) decides.
ghost use Rattle.std.specs.Prelude.{◌+◌, ◌≤◌, length};
ghost use Rattle.layout.specs.Layout.{area_size, long_more};
ghost use Rattle.scan.specs.AreaRuns.{CapsFound, TicketsFound, LongFound};

use layout::fields::{flat_at, level_at, town_at};
use layout::rules::MONEY;
use std::num::wrapping_add_u64;
use wire::{eight_at, one_at};

// 1 where the day cap stands in the word.
const ONE_DAY_CAP: u64 = 0x0001_0000_0000_0000;
// Of a word of four fields: the upper bit of each; all bits of three, and the upper bit of the last.
const UPPER_BITS: u64 = 0x8000_8000_8000_8000;

const UNUSED_BITS: u64 = 0x8000_FFFF_FFFF_FFFF;
// The upper bit of the first field alone.
const FIRST_BIT: u64 = 32_768;
// The minutes of a flat cap, 30 to 1,440, where they stand in the word: it is not below the one, and below the other.
const LEAST_MINUTES: u64 = 30 * 65_536;

const PAST_MINUTES: u64 = 1_441 * 65_536;

// Whether the trip cap, the day cap and the bicycle flat of the area record at a place are found to be right.
pub fn caps_found(b: &[u8], at: usize) -> bool
    requires { at + area_size ≤ length b.now }
    ensures { CapsFound b.now at result }
{
    if MONEY < flat_at(b, at) {
        return false;
    }
    let first = eight_at(b, at + 15);
    let last = wrapping_add_u64(eight_at(b, at + 19), ONE_DAY_CAP);
    let sort = one_at(b, at + 14);
    if sort == 0 {
        return (first | (last & UNUSED_BITS)) == 0;
    }
    if sort == 2 {
        return ((first & UPPER_BITS) | (last & UPPER_BITS)) == 0;
    }
    (sort == 1)
        & ((last & UNUSED_BITS) == 0)
        & (LEAST_MINUTES <= first)
        & (first < PAST_MINUTES)
        & ((first & FIRST_BIT) == 0)
}

// Whether the child tickets and the bicycle price of the area record of kind 8 at a place are.
fn tickets_found(b: &[u8], at: usize) -> bool
    requires { at + (area_size + long_more) ≤ length b.now }
    ensures { TicketsFound b.now at result }
{
    let first = eight_at(b, at + 29);
    let last = eight_at(b, at + 33);
    let sort = one_at(b, at + 14);
    if sort == 0 {
        return (first | (last & UNUSED_BITS)) == 0;
    }
    if sort == 2 {
        return ((first & UPPER_BITS) | (last & UPPER_BITS)) == 0;
    }
    (sort == 1) & ((last & UNUSED_BITS) == 0) & (first < FIRST_BIT)
}

// Whether all that it has besides is: these, and the town mark, which is 0 unless the area is a city.
pub fn long_found(b: &[u8], at: usize) -> bool
    requires { at + (area_size + long_more) ≤ length b.now }
    ensures { LongFound b.now at result }
{
    if !tickets_found(b, at) {
        return false;
    }
    let town = town_at(b, at);
    (town == 0) | ((town <= 2) & (level_at(b, at) == 2))
}
