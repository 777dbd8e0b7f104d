// What an area asks of bicycles. Most bicycles are covered by the ride's own area before and after it, so its terms are read once for all of
// them, and those of another area only where it covers one. Nothing else hangs on which of the two ways it is: the terms are the same.
ghost use Rattle.std.specs.Prelude.{◌<◌};
ghost use Rattle.layout.specs.Scan.{Read};
ghost use Rattle.cycles.specs.Clauses.{TermsOf};

use areas::{bicycle_price, flat, is_aachen};
use layout::Counts;
use units::Cents;

// Whether the area is of kind 8; its flat, or in kind 8 the cap in a window; and in kind 8 its price per trip.
#[derive(Clone, Copy)]
pub struct Terms {
    pub aachen: bool,
    pub flat: Cents,
    pub price: Cents,
}

pub fn terms_of(tariff: &[u8], counts: Counts, at: usize) -> Terms
    requires { Read tariff.now counts × (at < counts.areas) }
    ensures { TermsOf tariff.now counts at result }
{
    let tariff = &*tariff;
    let whole = flat(tariff, counts, at);
    if is_aachen(tariff, counts, at) {
        Terms {
            aachen: true,
            flat: whole,
            price: bicycle_price(tariff, counts, at),
        }
    } else {
        Terms {
            aachen: false,
            flat: whole,
            price: Cents(0),
        }
    }
}

// The terms of an area, where those of the ride's own, `at`, are known.
pub fn terms_by(tariff: &[u8], counts: Counts, own: Terms, at: usize, area: usize) -> Terms
    requires { Read tariff.now counts × (TermsOf tariff.now counts at own × (area < counts.areas)) }
    ensures { TermsOf tariff.now counts area result }
{
    if area == at {
        own
    } else {
        terms_of(tariff, counts, area)
    }
}
