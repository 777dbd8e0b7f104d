// A fast way to see that all pairs of a used book are sound, which almost always they are.
//
// It is right since each second-class sum is at most all of them with their bits put together, and so is each gap between a pair's two sums,
// counted round 2^32. Where these two together are at most what a sum may be, no pair's gap has gone round: the second-class sum and the gap
// make the all-classes sum, which is then neither below the one nor above the limit. Where they are more, nothing is said here, and the pairs are
// looked at one by one.
ghost use Rattle.std.specs.Prelude.{◌≡◌, length};
ghost use Rattle.ledger.specs.Words.{book_size};
ghost use Rattle.ledger.specs.Clauses.{PairsClear};

use crate::words::{PAIRS, get, pair_at};
use std::num::wrapping_sub_u32;

pub fn pairs_clear(book: &[u8], most: u32) -> bool
    requires { length book.now ≡ book_size }
    ensures { PairsClear book.now most result }
{
    let mut seconds: u32 = 0;
    let mut gaps: u32 = 0;
    for i in 0..PAIRS {
        let place = pair_at(i);
        let second = get(book, place);
        let all = get(book, place + 1);
        seconds = seconds | second;
        gaps = gaps | wrapping_sub_u32(all, second);
    }
    if most < seconds {
        return false;
    }
    gaps <= most - seconds
}
