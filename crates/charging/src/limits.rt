// An area's caps for a rider, and the chain of areas whose caps a ride has.
ghost use Rattle.std.specs.Prelude.{◌≡◌, ◌<◌};
ghost use Rattle.layout.specs.Scan.{Read};
ghost use Rattle.areas.specs.Areas.{area_at};
ghost use Rattle.cycles.specs.Clauses.{EarlierThere};
ghost use Rattle.charging.specs.Caps.{caps_here};
ghost use Rattle.charging.specs.Clauses.{pending_in, link_with, ChainOf};

use areas::{lies_within, limits, parent};
use caps::Caps;
use layout::Counts;
use trip::Earlier;
use units::{Cap, raised, reduced};

// An area of a chain, with its caps, and whether its sums lack the charges of an earlier part of the trip.
#[derive(Clone, Copy)]
pub struct Link {
    pub area: usize,
    pub caps: Caps,
    pub pending: bool,
}

// The areas whose caps hold for a ride: its own, the one above it and the one above that. The state is its own parent, so in a shorter
// chain it stands again, and what its caps have cut they do not cut again.
#[derive(Clone, Copy)]
pub struct Chain {
    pub own: Link,
    pub above: Link,
    pub top: Link,
}

// An area's caps for an adult or a child. Of the area's record only what they are made of is read.
pub fn caps_at(tariff: &[u8], counts: Counts, at: usize, child: bool) -> Caps
    requires { Read tariff.now counts × (at < counts.areas) }
    ensures { result ≡ caps_here (area_at tariff.now at) child }
{
    let of = limits(tariff, counts, at);
    let daily = of.day_cap;
    match daily {
        Cap::NoCap => Caps {
            second: Cap::NoCap,
            all: Cap::NoCap,
        },
        Cap::UpTo(day) => {
            let dear = raised(day, of.surcharge);
            if child {
                Caps {
                    second: Cap::UpTo(reduced(day, of.reduction)),
                    all: Cap::UpTo(reduced(dear, of.reduction)),
                }
            } else {
                Caps {
                    second: Cap::UpTo(day),
                    all: Cap::UpTo(dear),
                }
            }
        }
    }
}

// An earlier part's charges count in every area that its own lies within.
fn pending_in(tariff: &[u8], counts: Counts, earlier: Earlier, at: usize) -> bool
    requires { Read tariff.now counts × EarlierThere counts earlier }
    ensures { result ≡ pending_in tariff.now counts earlier at }
{
    match earlier {
        Earlier::Nothing => false,
        Earlier::Part(before) => lies_within(tariff, counts, before.area, at),
    }
}

fn link_of(tariff: &[u8], counts: Counts, at: usize, child: bool, pending: bool) -> Link
    requires { Read tariff.now counts × (at < counts.areas) }
    ensures { result ≡ link_with tariff.now counts at child pending }
{
    Link {
        area: at,
        caps: caps_at(tariff, counts, at, child),
        pending,
    }
}

// The chain of an area, once for all adults or all children of a party.
pub fn chain_of(tariff: &[u8], counts: Counts, at: usize, child: bool, earlier: Earlier) -> Chain
    requires { Read tariff.now counts × ((at < counts.areas) × EarlierThere counts earlier) }
    ensures { ChainOf tariff.now counts at child earlier result }
{
    let above = parent(tariff, counts, at);
    // Three levels: above the area above an area is the state.
    let top: usize = 0;
    // Of an earlier part no more is needed below here than what is pending.
    let low = pending_in(tariff, counts, earlier, at);
    let middle = pending_in(tariff, counts, earlier, above);
    let high = pending_in(tariff, counts, earlier, top);
    Chain {
        own: link_of(tariff, counts, at, child, low),
        above: link_of(tariff, counts, above, child, middle),
        top: link_of(tariff, counts, top, child, high),
    }
}
