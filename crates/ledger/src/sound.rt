// Whether any byte string is a sound book: by itself, which knows no tariff, and under a tariff with so many areas.
// The loops have no early way out, so that the compiler can take many words at a time.
ghost use Rattle.std.specs.Prelude.{◌≡◌, length};
ghost use Rattle.ledger.specs.Words.{book_size};
ghost use Rattle.ledger.specs.Sound.{all_zero, pairs_sound, covers_sound, payments_sound, head_sound, sound_alone, sound};

use crate::gaps::pairs_clear;
use crate::words::{EDITION, LAST_OUT, OPENING, PAIRS, SIZE, TRIPS, cover, get, pair_at, payments};
use crate::zeros::bits_of_all;
use calendar::Stamp;
use units::{DAY, MOST_PRICE};

// The most that a bicycle's payments in a window are.
const MOST_PAID: u32 = 15_360_000;

// No word has a bit set: one look at them all together, at the end.
fn all_zero(book: &[u8]) -> bool
    requires { length book.now ≡ book_size }
    ensures { result ≡ all_zero book.now }
{
    bits_of_all(book) == 0
}

// All 21 × 32 pairs: each second-class sum at most its all-classes sum, and that at most `most`.
fn pairs_sound(book: &[u8], most: u32) -> bool
    requires { length book.now ≡ book_size }
    ensures { result ≡ pairs_sound book.now most }
{
    if pairs_clear(book, most) {
        return true;
    }
    let mut right = true;
    for i in 0..PAIRS {
        let place = pair_at(i);
        let second = get(book, place);
        let all = get(book, place + 1);
        right = right & (second <= all) & (all <= most);
    }
    right
}

fn payments_sound(book: &[u8]) -> bool
    requires { length book.now ≡ book_size }
    ensures { result ≡ payments_sound book.now }
{
    let mut right = true;
    for i in 0..10usize {
        right = right & (get(book, payments(i)) <= MOST_PAID);
    }
    right
}

// The trips in the window, its opening and the last check-out.
fn head_sound(trips: u32, opening: u32, last: u32) -> bool
    ensures { result ≡ head_sound trips opening last }
{
    (1 <= trips)
        & (trips <= 256)
        & (opening <= last)
        & (last <= Stamp::LAST_MINUTE)
        & (last as u64 <= opening as u64 + DAY as u64)
}

pub fn is_sound_alone(book: &[u8]) -> bool
    ensures { result ≡ sound_alone book.now }
{
    if book.len() != SIZE {
        return false;
    }
    let trips = get(book, TRIPS);
    if trips == 0 {
        return all_zero(book);
    }
    if !head_sound(trips, get(book, OPENING), get(book, LAST_OUT)) {
        return false;
    }
    pairs_sound(book, trips * MOST_PRICE) & (payments_sound(book) & (1 <= get(book, EDITION)))
}

// Each bicycle word is at most the number of areas.
pub fn covers_within(book: &[u8], areas: usize) -> bool
    requires { length book.now ≡ book_size }
    ensures { result ≡ covers_sound book.now areas }
{
    let mut right = true;
    for i in 0..10usize {
        right = right & (get(book, cover(i)) as usize <= areas);
    }
    right
}

pub fn is_sound(book: &[u8], areas: usize) -> bool
    ensures { result ≡ sound book.now areas }
{
    if !is_sound_alone(book) {
        return false;
    }
    covers_within(book, areas)
}
