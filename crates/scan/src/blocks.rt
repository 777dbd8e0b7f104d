// Stops in blocks: most of a tariff is stops, and all that stand one after another are checked with one test, 18 in a turn. Where there are
// fewer, and where that test finds something wrong, they are taken three at a time; a smaller rest, and whatever is wrong, is for the loop
// over the records (lib.rt).
//
// Why it is right: of each stop two words of eight bytes are taken, and each of them once more with a number added to it, so that wherever a
// field is wrong a bit is set that is clear in every right stop. Words joined by "or" have each bit that one of them has. So where those bits
// of the joined words are clear, every stop stands. Where they are not, nothing is said, and the loop over the records decides.
ghost use Rattle.std.specs.Prelude.{◌≡◌, ◌+◌, ◌-◌, ◌*◌, ◌%◌, ◌^◌, ◌≤◌, length};
ghost use Rattle.layout.specs.Layout.{stop_size, most_areas};
ghost use Rattle.scan.specs.Clauses.{StopsStand};
ghost use Rattle.scan.specs.Blocks.{Tells, ClearIf, joined_sums};

use layout::fields::{MOST_AREAS, STOP_SIZE};
use std::num::wrapping_add_u64;
use wire::{eight_at, four_at};

const THREE: usize = 3;

const NINE: usize = 9;

const BLOCK: usize = 18;
// A stop's length and kind, 11 and 2, as one number.
const STOP_HEAD: u32 = 131_083;

// The two words of a stop, or of several joined: the one of its length, kind and area, with the three bytes before them, and the one of its x
// and y; and both moved.
#[derive(Clone, Copy)]
pub struct Sums {
    pub head: u64,
    pub point: u64,
    pub head_moved: u64,
    pub point_moved: u64,
}

// 2^64 less a stop's length and kind, 11 and 2 above it, where they stand in the word.
const LESS_HEAD: u64 = 18_446_741_874_501_746_688;
// 1 where the area stands in the word.
const ONE_AREA: u64 = 72_057_594_037_927_936;
// What 1,000,000 lacks to the last number of 20 bits, for x and for y.
const POINT_MOVE: u64 = 208_628_036_451_775;
// The bits of an area from 32 on; these, and all bits of length and kind; the bits of x and y from 2^20 on.
const AREA_BITS: u64 = 0xE000_0000_0000_0000;

const HEAD_BITS: u64 = 0xE0FF_FFFF_FF00_0000;

const POINT_BITS: u64 = 0xFFF0_0000_FFF0_0000;

// What makes length and kind 0, and brings an area that exists below 32.
fn head_move(areas: u16) -> u64
    requires { areas ≤ most_areas }
    ensures { result ≡ (18446741874501746688 + (most_areas - areas) * 72057594037927936) % 2 ^ 64 }
{
    wrapping_add_u64(LESS_HEAD, (MOST_AREAS - areas) as u64 * ONE_AREA)
}

fn stop_sums(b: &[u8], at: usize, areas: u16) -> Sums
    requires { (3 ≤ at) × (at + stop_size ≤ length b.now) × (areas ≤ most_areas) }
    ensures { Tells b.now at areas 1 result }
{
    let head = eight_at(b, at - 3);
    let point = eight_at(b, at + 5);
    Sums {
        head,
        point,
        head_moved: wrapping_add_u64(head, head_move(areas)),
        point_moved: wrapping_add_u64(point, POINT_MOVE),
    }
}

fn joined(s: Sums, t: Sums) -> Sums
    ensures { result ≡ joined_sums s t }
{
    Sums {
        head: s.head | t.head,
        point: s.point | t.point,
        head_moved: s.head_moved | t.head_moved,
        point_moved: s.point_moved | t.point_moved,
    }
}

// Of three, nine and 18 stops: straight on, so that the compiler takes two words at once.
fn three_sums(b: &[u8], at: usize, areas: u16) -> Sums
    requires { (3 ≤ at) × (at + 3 * stop_size ≤ length b.now) × (areas ≤ most_areas) }
    ensures { Tells b.now at areas 3 result }
{
    let first = stop_sums(b, at, areas);
    let second = stop_sums(b, at + STOP_SIZE, areas);
    joined(
        joined(first, second),
        stop_sums(b, at + 2 * STOP_SIZE, areas),
    )
}

fn nine_sums(b: &[u8], at: usize, areas: u16) -> Sums
    requires { (3 ≤ at) × (at + 9 * stop_size ≤ length b.now) × (areas ≤ most_areas) }
    ensures { Tells b.now at areas 9 result }
{
    let first = three_sums(b, at, areas);
    let second = three_sums(b, at + THREE * STOP_SIZE, areas);
    joined(
        joined(first, second),
        three_sums(b, at + 2 * THREE * STOP_SIZE, areas),
    )
}

fn block_sums(b: &[u8], at: usize, areas: u16) -> Sums
    requires { (3 ≤ at) × (at + 18 * stop_size ≤ length b.now) × (areas ≤ most_areas) }
    ensures { Tells b.now at areas 18 result }
{
    let first = nine_sums(b, at, areas);
    joined(first, nine_sums(b, at + NINE * STOP_SIZE, areas))
}

// Of all stops from a place on, 18 or more, block after block. The last block ends where they end, so that it may begin within the one before:
// what is joined twice changes nothing. In this form: so the compiler keeps two words in one register, and does not join turns of the loop
// instead.
fn all_sums(b: &[u8], from: usize, areas: u16, most: usize) -> Sums
    requires { (3 ≤ from) × (from + stop_size * most ≤ length b.now) × (areas ≤ most_areas) × (18 ≤ most) }
    ensures { Tells b.now from areas most result }
{
    let last = from + STOP_SIZE * (most - BLOCK);
    let mut at = from;
    let mut head: u64 = 0;
    let mut point: u64 = 0;
    let mut head_moved: u64 = 0;
    let mut point_moved: u64 = 0;
    loop {
        let block = block_sums(b, at, areas);
        head = head | block.head;
        point = point | block.point;
        head_moved = head_moved | block.head_moved;
        point_moved = point_moved | block.point_moved;
        let next = at + BLOCK * STOP_SIZE;
        if last < next {
            if at == last {
                break;
            }
            at = last;
        } else {
            at = next;
        }
    }
    Sums {
        head,
        point,
        head_moved,
        point_moved,
    }
}

// Whether the bits are clear that a wrong field sets. In this order: so the compiler pairs the words, and the moved words.
fn is_clear(s: Sums) -> bool
    ensures { ClearIf s result }
{
    ((s.head & AREA_BITS)
        | (s.point & POINT_BITS)
        | (s.head_moved & HEAD_BITS)
        | (s.point_moved & POINT_BITS))
        == 0
}

// How many stops from a place on are found to stand, three at a time, of `most` that there is room for.
fn threes_standing(b: &[u8], from: usize, areas: u16, most: usize) -> usize
    requires { (3 ≤ from) × (from + stop_size * most ≤ length b.now) × (areas ≤ most_areas) }
    ensures { StopsStand b.now from areas result × (result ≤ most) }
{
    let mut stops = 0;
    let mut at = from;
    while stops + THREE <= most {
        if !is_clear(three_sums(b, at, areas)) {
            break;
        }
        at += THREE * STOP_SIZE;
        stops += THREE;
    }
    stops
}

// How many of so many stops from a place on are found to stand: all, with one test, or else some.
fn stops_found(b: &[u8], from: usize, areas: u16, most: usize) -> usize
    requires { (3 ≤ from) × (from + stop_size * most ≤ length b.now) × (areas ≤ most_areas) }
    ensures { StopsStand b.now from areas result × (result ≤ most) }
{
    if BLOCK <= most {
        if is_clear(all_sums(b, from, areas, most)) {
            return most;
        }
    }
    threes_standing(b, from, areas, most)
}

// How many stops there likely are, of `most` that there is room for. Behind a file's last stop there is no room, so the last place has a stop's length
// and kind; behind the stops of the first of two editions stands the second, and where it begins is searched for. It is a guess, which decides
// nothing: whether they stand is tested.
fn likely_stops(b: &[u8], from: usize, most: usize) -> usize
    requires { from + stop_size * most ≤ length b.now }
    ensures { result ≤ most }
{
    if most == 0 {
        return 0;
    }
    if four_at(b, from + STOP_SIZE * (most - 1)) == STOP_HEAD {
        return most;
    }
    let mut low = 0;
    let mut high = most - 1;
    while low < high {
        let middle = low + (high - low) / 2;
        if four_at(b, from + STOP_SIZE * middle) == STOP_HEAD {
            low = middle + 1;
        } else {
            high = middle;
        }
    }
    low
}

// How many stops from a place on are found to stand, of `most` that there is room for; the one after them may stand or not.
pub fn stops_standing(b: &[u8], from: usize, areas: u16, most: usize) -> usize
    requires { (3 ≤ from) × (from + stop_size * most ≤ length b.now) × (areas ≤ most_areas) }
    ensures { StopsStand b.now from areas result × (result ≤ most) }
{
    let likely = likely_stops(b, from, most);
    stops_found(b, from, areas, likely)
}
