// What the caps of a ride's areas leave of a price, and what they took off. In a new window the sums count as none.
ghost use Rattle.std.specs.Prelude.{◌≡◌, ◌+◌, ◌≤◌, ◌<◌, length};
ghost use Rattle.ledger.specs.Words.{book_size};
ghost use Rattle.ledger.specs.Windows.{in_window};
ghost use Rattle.charging.specs.Clauses.{lacking_at, FitsAt, FitsAlong, rest_at_link, ChargeBy, cut_by};

use crate::limits::{Chain, Link};
use caps::{Cut, Rest, capped_here, name_of, uncapped};
use ledger::windows::get_in;
use ledger::words::pair;
use units::Cents;

// What a rider's sums in an area of a chain lack, of what the rider paid for an earlier part.
fn lacking(link: Link, paid: Cents) -> Cents
    ensures { result.0 ≡ lacking_at link paid.0 }
{
    if link.pending { paid } else { Cents(0) }
}

// What the caps of one area of a chain leave a rider of a rest. What the sums lack is added to both: class 1 does not look at second-class
// sums.
fn capped_at(
    book: &[u8],
    current: bool,
    rider: usize,
    link: Link,
    class: u8,
    paid: Cents,
    rest: Rest,
) -> Rest
    requires { (length book.now ≡ book_size) × ((rider < 21) × FitsAt link (in_window current book.now) rider paid.0) }
    ensures { (result ≡ rest_at_link link (in_window current book.now) rider class paid.0 rest) × (result.amount.0 ≤ rest.amount.0) }
{
    let at = link.area;
    let place = pair(rider, at);
    let more = lacking(link, paid);
    let second = get_in(book, current, place) + more.0;
    let all = get_in(book, current, place + 1) + more.0;
    let caps = link.caps;
    capped_here(caps, at as u8, class, Cents(second), Cents(all), rest)
}

// What the caps of a price's area and of every area above leave of it, and the cap that leaves the least.
pub fn charge(
    book: &[u8],
    current: bool,
    rider: usize,
    chain: Chain,
    class: u8,
    paid: Cents,
    price: Cents,
) -> Rest
    requires { (length book.now ≡ book_size) × ((rider < 21) × FitsAlong chain (in_window current book.now) rider paid.0) }
    ensures { ChargeBy chain (in_window current book.now) rider class paid.0 price.0 result }
{
    let own = chain.own;
    let above = chain.above;
    let top = chain.top;
    let whole = uncapped(price);
    let low = capped_at(book, current, rider, own, class, paid, whole);
    let middle = capped_at(book, current, rider, above, class, paid, low);
    capped_at(book, current, rider, top, class, paid, middle)
}

// What was taken off a price, and by which cap.
pub fn cut_of(price: Cents, rest: Rest) -> Cut
    requires { rest.amount.0 ≤ price.0 }
    ensures { result ≡ cut_by price.0 rest }
{
    let amount = rest.amount;
    let name = name_of(price, rest);
    Cut {
        reduction: Cents(price.0 - amount.0),
        area: name.area,
        class: name.class,
    }
}
