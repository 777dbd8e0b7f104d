// Riders who have travelled together: where a rider's sums in the three areas of a chain are those of the rider before, and both paid the same for
// an earlier part, what the caps leave of the price is the same too, and is not worked out again.
//
// It is right since of a rider nothing but these numbers is looked at. Where one of them differs, the caps are asked.
ghost use Rattle.std.specs.Prelude.{◌≡◌, ◌<◌, length};
ghost use Rattle.ledger.specs.Words.{book_size};
ghost use Rattle.ledger.specs.Windows.{in_window};
ghost use Rattle.charging.specs.Clauses.{Places, FitsAlong, person_by};
ghost use Rattle.charging.specs.Alike.{SamePair, AsBefore, LastRight};

use crate::Person;
use crate::limits::Chain;
use crate::rest::{charge, cut_of};
use ledger::words::pair;
use units::Cents;
use wire::eight_at;

// What a rider is charged who paid so much for an earlier part, and the number of the rider behind that one.
#[derive(Clone, Copy)]
pub struct Last {
    pub next: usize,
    pub paid: u32,
    pub charge: Person,
}

// No rider has this number: nobody is behind nobody.
pub const NO_RIDER: usize = 21;

// Whether the sums in an area of the rider behind one are that one's: a pair of sums is eight bytes.
fn same_pair(book: &[u8], before: usize, at: usize) -> bool
    requires { (length book.now ≡ book_size) × ((before < 20) × (at < 32)) }
    ensures { SamePair book.now before at result }
{
    eight_at(book, 4 * pair(before + 1, at)) == eight_at(book, 4 * pair(before, at))
}

// The same of the three areas of a chain; in a new window nobody has any sum.
fn as_before(book: &[u8], current: bool, before: usize, chain: Chain) -> bool
    requires { (length book.now ≡ book_size) × ((before < 20) × Places chain) }
    ensures { AsBefore chain (in_window current book.now) before result }
{
    if !current {
        return true;
    }
    let own = chain.own;
    let above = chain.above;
    let top = chain.top;
    same_pair(book, before, own.area)
        & same_pair(book, before, above.area)
        & same_pair(book, before, top.area)
}

// What a rider is charged: as the rider before where both are alike.
pub fn charge_alike(
    book: &[u8],
    current: bool,
    rider: usize,
    chain: Chain,
    class: u8,
    paid: Cents,
    price: Cents,
    last: Last,
) -> Person
    requires { (length book.now ≡ book_size) × ((rider < 21) × (FitsAlong chain (in_window current book.now) rider paid.0
        × LastRight chain (in_window current book.now) rider class price.0 last)) }
    ensures { result ≡ person_by chain (in_window current book.now) rider class paid.0 price.0 }
{
    if (rider == last.next) & (paid.0 == last.paid) {
        if as_before(book, current, rider - 1, chain) {
            return last.charge;
        }
    }
    let rest = charge(book, current, rider, chain, class, paid, price);
    let amount = rest.amount;
    let cut = cut_of(price, rest);
    Person { amount, cut }
}
