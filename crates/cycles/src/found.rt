// Bicycles that have travelled together have the same words. Then a ride charges them alike and leaves them the same words: neither is worked out
// again.
ghost use Rattle.std.specs.Prelude.{◌≤◌, ◌<◌};
ghost use Rattle.layout.specs.Scan.{Read};
ghost use Rattle.ledger.specs.Sound.{most_paid};
ghost use Rattle.cycles.specs.Clauses.{EarlierThere, TermsOf, FoundRight, FoundAs, ChangedRight, ChangedAs};

use crate::bicycles::{Words, charge_bicycle, words_after, words_with};
use crate::terms::Terms;
use layout::Counts;
use trip::Earlier;
use units::Cents;

// A bicycle's two words as they were found, and its charge.
#[derive(Clone, Copy)]
pub struct Found {
    pub cover: usize,
    pub paid: Cents,
    pub amount: Cents,
}

// A bicycle's two words as they were found, and as a ride leaves them.
#[derive(Clone, Copy)]
pub struct Changed {
    pub cover: usize,
    pub paid: Cents,
    pub words: Words,
}

// No bicycle's word is this: a tariff has at most 32 areas.
pub const NEVER_FOUND: usize = 33;

// A bicycle's charge by its words: that of the bicycle before it, where they are the same.
pub fn charge_found(
    tariff: &[u8],
    counts: Counts,
    earlier: Earlier,
    own: Terms,
    at: usize,
    last: Found,
    cover: usize,
    paid: Cents,
) -> Found
    requires { Read tariff.now counts × (TermsOf tariff.now counts at own × ((at < counts.areas) × (EarlierThere counts earlier
        × ((cover ≤ counts.areas) × ((paid.0 ≤ most_paid) × FoundRight tariff.now counts earlier at last))))) }
    ensures { FoundAs tariff.now counts earlier at cover paid.0 result }
{
    let before = last.paid;
    if (cover == last.cover) & (paid.0 == before.0) {
        last
    } else {
        let words = words_after(tariff, counts, earlier, cover, paid);
        Found {
            cover,
            paid,
            amount: charge_bicycle(tariff, counts, own, at, words.cover, words.paid),
        }
    }
}

// The words that a ride leaves a bicycle: those that it left the bicycle before it, where both had the same.
pub fn words_found(
    tariff: &[u8],
    counts: Counts,
    own: Terms,
    at: usize,
    last: Changed,
    cover: usize,
    paid: Cents,
) -> Changed
    requires { Read tariff.now counts × (TermsOf tariff.now counts at own × ((at < counts.areas) × ((cover ≤ counts.areas)
        × ((paid.0 ≤ most_paid) × ChangedRight tariff.now counts at last)))) }
    ensures { ChangedAs tariff.now counts at cover paid.0 result }
{
    let before = last.paid;
    if (cover == last.cover) & (paid.0 == before.0) {
        last
    } else {
        Changed {
            cover,
            paid,
            words: words_with(tariff, counts, own, at, cover, paid),
        }
    }
}
