// Where each word of a book stands. Nobody else knows.
ghost use Rattle.std.specs.Prelude.{◌≡◌, ◌<◌, length};
ghost use Rattle.ledger.specs.Words.{book_size, book_words, put_word, pair_place, pairs, pair_at, cover_place, paid_place};
ghost use Rattle.ledger.specs.Clauses.{Word};

use wire::{four_at, put_four};

pub const SIZE: usize = 5_472;

pub const TRIPS: usize = 0;

pub const OPENING: usize = 1;

pub const LAST_OUT: usize = 2;

// Riders: 0 the account holder, then ten adults, then ten children from here on.
pub const FIRST_CHILD: usize = 11;

// The two sums of a rider in an area: second class, and the word after it all classes.
pub fn pair(rider: usize, area: usize) -> usize
    requires { (rider < 21) × (area < 32) }
    ensures { (result ≡ pair_place rider area) × (result < 1346) }
{
    3 + 64 * rider + 2 * area
}

// The pairs one after another: a rider's in an area is number 32 × rider + area.
pub const PAIRS: usize = 672;

pub fn pair_at(number: usize) -> usize
    requires { number < pairs }
    ensures { (result ≡ pair_at number) × (result < 1346) }
{
    3 + 2 * number
}

// A bicycle's word: 0 if unused, else 1 + its covering area.
pub fn cover(bicycle: usize) -> usize
    requires { bicycle < 10 }
    ensures { (result ≡ cover_place bicycle) × (result < book_words) }
{
    1_347 + bicycle
}

// A bicycle's payments per trip in the window.
pub fn payments(bicycle: usize) -> usize
    requires { bicycle < 10 }
    ensures { (result ≡ paid_place bicycle) × (result < book_words) }
{
    1_357 + bicycle
}

// The edition of the window: the last word.
pub const EDITION: usize = 1_367;

pub fn get(book: &[u8], place: usize) -> u32
    requires { (length book.now ≡ book_size) × (place < book_words) }
    ensures { Word book.now place result }
{
    four_at(book, 4 * place)
}

pub fn put(book: &mut [u8], place: usize, v: u32)
    requires { (length book.old ≡ book_size) × (place < book_words) }
    ensures { book.new ≡ put_word book.old place v }
{
    put_four(book, 4 * place, v);
}
