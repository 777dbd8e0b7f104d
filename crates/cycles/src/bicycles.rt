// What a bicycle is charged, by its new covering area, and its words after a ride. Where an earlier part of the trip goes before the ride, the
// words are those that the part leaves.
ghost use Rattle.std.specs.Prelude.{◌≡◌, ◌+◌, ◌≤◌, ◌<◌};
ghost use Rattle.layout.specs.Scan.{Read};
ghost use Rattle.layout.specs.Rules.{most_money};
ghost use Rattle.ledger.specs.Sound.{most_paid};
ghost use Rattle.cycles.specs.Bicycles.{flat_before};
ghost use Rattle.cycles.specs.Clauses.{EarlierThere, NewCover, TermsOf, pay_by, paid_by, BicycleCharge, WordsWith, WordsAfter};

use crate::terms::{Terms, terms_by, terms_of};
use areas::smallest_containing;
use layout::Counts;
use trip::Earlier;
use units::Cents;

// A bicycle's new covering area: the smallest containing the ride's area and its old covering area, if any. Where both are one, it is that.
fn new_cover(tariff: &[u8], counts: Counts, at: usize, old: usize) -> usize
    requires { Read tariff.now counts × ((at < counts.areas) × (old ≤ counts.areas)) }
    ensures { NewCover tariff.now counts at old result }
{
    if old == 0 {
        at
    } else if old - 1 == at {
        at
    } else {
        smallest_containing(tariff, counts, at, old - 1)
    }
}

// What a bicycle pays for a ride where its covering area is of kind 8: the smaller of the area's price per trip and what its cap has left.
fn payment(terms: Terms, paid: Cents) -> Cents
    ensures { result.0 ≡ pay_by terms paid.0 }
{
    let price = terms.price;
    let cap = terms.flat;
    if cap.0 <= paid.0 {
        Cents(0)
    } else if price.0 <= cap.0 - paid.0 {
        price
    } else {
        Cents(cap.0 - paid.0)
    }
}

// A bicycle's payments after a ride, by its covering area then: in kind 8 what it pays is added.
fn paid_with(terms: Terms, paid: Cents) -> Cents
    requires { (terms.flat.0 ≤ most_money) × (paid.0 ≤ most_paid) }
    ensures { result.0 ≡ paid_by terms paid.0 }
{
    if terms.aachen {
        let more = payment(terms, paid);
        let after = paid.0 + more.0;
        Cents(after)
    } else {
        paid
    }
}

// An old covering area's flat: none if the bicycle is unused, or the area of kind 8.
fn flat_before(tariff: &[u8], counts: Counts, own: Terms, at: usize, old: usize) -> Cents
    requires { Read tariff.now counts × (TermsOf tariff.now counts at own × (old ≤ counts.areas)) }
    ensures { result.0 ≡ flat_before tariff.now counts old }
{
    if 0 < old {
        let before = terms_by(tariff, counts, own, at, old - 1);
        if before.aachen { Cents(0) } else { before.flat }
    } else {
        Cents(0)
    }
}

// A bicycle's charge by its new covering area: in kind 8 the payment per trip, else the area's flat less the old one's.
pub fn charge_bicycle(
    tariff: &[u8],
    counts: Counts,
    own: Terms,
    at: usize,
    old: usize,
    paid: Cents,
) -> Cents
    requires { Read tariff.now counts × (TermsOf tariff.now counts at own × ((at < counts.areas) × (old ≤ counts.areas))) }
    ensures { BicycleCharge tariff.now counts at old paid.0 result.0 }
{
    let new = new_cover(tariff, counts, at, old);
    let terms = terms_by(tariff, counts, own, at, new);
    if terms.aachen {
        payment(terms, paid)
    } else {
        let whole = terms.flat;
        let before = flat_before(tariff, counts, own, at, old);
        let credit = before.0;
        let amount = whole.0 - credit;
        Cents(amount)
    }
}

// A bicycle's two words: 1 + its covering area's number, or 0 for none, and its payments.
#[derive(Clone, Copy)]
pub struct Words {
    pub cover: usize,
    pub paid: Cents,
}

// The words that a ride in an area leaves a bicycle.
pub fn words_with(
    tariff: &[u8],
    counts: Counts,
    own: Terms,
    at: usize,
    old: usize,
    paid: Cents,
) -> Words
    requires { Read tariff.now counts × (TermsOf tariff.now counts at own × ((at < counts.areas) × ((old ≤ counts.areas) × (paid.0 ≤ most_paid)))) }
    ensures { WordsWith tariff.now counts at old paid.0 result }
{
    let new = new_cover(tariff, counts, at, old);
    let terms = terms_by(tariff, counts, own, at, new);
    let cover = 1 + new;
    Words {
        cover,
        paid: paid_with(terms, paid),
    }
}

// The words after an earlier part, by those in the book.
pub fn words_after(
    tariff: &[u8],
    counts: Counts,
    earlier: Earlier,
    old: usize,
    paid: Cents,
) -> Words
    requires { Read tariff.now counts × (EarlierThere counts earlier × ((old ≤ counts.areas) × (paid.0 ≤ most_paid))) }
    ensures { WordsAfter tariff.now counts earlier old paid.0 result }
{
    match earlier {
        Earlier::Nothing => Words { cover: old, paid },
        Earlier::Part(before) => {
            let at = before.area;
            words_with(tariff, counts, terms_of(tariff, counts, at), at, old, paid)
        }
    }
}
