// An area's prices at once: base price, price per km, validity and both percentages stand side by side in eight bytes.
//
// Why it is right: the word is taken less the 30 minutes that a validity has at least, and once more with a number added that brings each
// field, if it is not above its most, below a power of two. Where the bits from there on are clear in both, no field ran over into the next
// and each is in its range. Where they are not, nothing is said, and the loop over the records (lib.rt) decides.
ghost use Rattle.std.specs.Prelude.{◌+◌, ◌≤◌, length};
ghost use Rattle.layout.specs.Layout.{area_size};
ghost use Rattle.scan.specs.AreaRuns.{PricesFound};

use std::num::wrapping_add_u64;
use wire::eight_at;

// 2^64 less 30 where the validity stands in the word.
const LESS_MINUTES: u64 = 18_446_743_944_860_532_736;
// What 10,000, 1,000, 1,410, 100 and 100 lack to 2^14 - 1, 2^10 - 1, 2^11 - 1 and twice 2^7 - 1.
const PRICES_MOVE: u64 = 0x1B1B_027D_0017_18EF;
// The bits of the five fields from 2^14, 2^10, 2^11, 2^7 and 2^7 on.
const PRICES_BITS: u64 = 0x8080_F800_FC00_C000;

// Whether the prices of the area record at a place are found to be right.
pub fn prices_found(b: &[u8], at: usize) -> bool
    requires { at + area_size ≤ length b.now }
    ensures { PricesFound b.now at result }
{
    let less = wrapping_add_u64(eight_at(b, at + 6), LESS_MINUTES);
    ((less | wrapping_add_u64(less, PRICES_MOVE)) & PRICES_BITS) == 0
}
