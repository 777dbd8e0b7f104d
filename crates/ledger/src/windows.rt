// The 24-hour window: which one a trip falls into.
ghost use Rattle.std.specs.Prelude.{◌≡◌, ◌+◌, ◌<◌, ◌≤◌, true, length};
ghost use Rattle.ledger.specs.Words.{book_size, book_words, edition_of};
ghost use Rattle.ledger.specs.Sound.{sound_alone};
ghost use Rattle.ledger.specs.Windows.{too_early, window_of, in_window};
ghost use Rattle.ledger.specs.Clauses.{Word};

use crate::Window;
use crate::words::{EDITION, LAST_OUT, OPENING, TRIPS, get};
use units::{DAY, Minutes};

// 10: check-in before the book's last check-out.
pub fn too_early(book: &[u8], checkin: Minutes) -> bool
    requires { length book.now ≡ book_size }
    ensures { result ≡ too_early book.now checkin.0 }
{
    (get(book, TRIPS) != 0) & (checkin.0 < get(book, LAST_OUT))
}

// A trip belongs to the open window when its check-out is at most 1,440 minutes after the opening; otherwise it opens the next,
// under the edition that is next.
pub fn window_of(book: &[u8], checkin: Minutes, checkout: Minutes, next: u8) -> Window
    requires { (sound_alone book.now ≡ true) × (edition_of book.now ≤ 255) }
    ensures { (result ≡ window_of book.now checkin.0 checkout.0 next) × (result.trips ≤ 256) }
{
    let trips = get(book, TRIPS);
    let opening = get(book, OPENING);
    let edition = get(book, EDITION) as u8;
    if (trips != 0) & (checkout.0 <= opening + DAY) {
        Window {
            current: true,
            opening: Minutes(opening),
            trips: trips,
            edition: edition,
        }
    } else {
        Window {
            current: false,
            opening: checkin,
            trips: 0,
            edition: next,
        }
    }
}

// A word of the book, which is 0 in a new window.
pub fn get_in(book: &[u8], current: bool, place: usize) -> u32
    requires { (length book.now ≡ book_size) × (place < book_words) }
    ensures { Word (in_window current book.now) place result }
{
    if current { get(book, place) } else { 0 }
}
