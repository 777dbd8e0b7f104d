// The records of a trip posted to the book: the area, the party and the charges are taken off them.
ghost use Rattle.std.specs.Prelude.{◌≡◌, ◌≤◌};
ghost use Rattle.settle.specs.Outcome.{one_more};
ghost use Rattle.settle.specs.Clauses.{RecordsPostable, RecordsPosted};

use layout::Counts;
use ledger::Window;
use posting::post;
use units::Minutes;

// The same window, with one trip more.
fn one_more(window: Window) -> Window
    requires { window.trips ≤ 255 }
    ensures { result ≡ one_more window }
{
    let opening = window.opening;
    Window {
        current: true,
        opening,
        trips: window.trips + 1,
        edition: window.edition,
    }
}

// The records in the first `size` bytes of the statement, one or two, each as one trip more of the window.
pub fn post_records(
    tariff: &[u8],
    counts: Counts,
    book: &mut [u8],
    window: Window,
    checkout: Minutes,
    class: u8,
    statement: &[u8],
    size: usize,
)
    requires { RecordsPostable tariff.now counts book.old window checkout class statement.now size }
    ensures { RecordsPosted tariff.now counts book.old window checkout class statement.now size book.new }
{
    // Borrowed anew, as where a trip is stated.
    let tariff = &*tariff;
    let statement = &*statement;
    let mut within = window;
    let mut next: usize = 0;
    while next < size {
        next = post(
            tariff, counts, book, within, checkout, class, statement, next,
        );
        within = one_more(within);
    }
}
