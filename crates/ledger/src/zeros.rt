// Whether a book has any bit set, with eight bytes read at a time: this is all that is looked at of a fresh book.
//
// The words of a turn are straight code, which the compiler takes 16 bytes at a time, and there is no early way out. A book is no whole
// number of turns: with the words after the last turn some come again.
ghost use Rattle.std.specs.Prelude.{◌≡◌, ◌+◌, ◌≤◌, length};
ghost use Rattle.ledger.specs.Words.{book_size, book_words};
ghost use Rattle.ledger.specs.Clauses.{BitsOf};

use wire::eight_at;

fn bits_of_8(book: &[u8], place: usize) -> u64
    requires { (length book.now ≡ book_size) × (place + 8 ≤ book_words) }
    ensures { BitsOf book.now place (place + 8) result }
{
    let at = 4 * place;
    eight_at(book, at) | eight_at(book, at + 8) | eight_at(book, at + 16) | eight_at(book, at + 24)
}

fn bits_of_32(book: &[u8], place: usize) -> u64
    requires { (length book.now ≡ book_size) × (place + 32 ≤ book_words) }
    ensures { BitsOf book.now place (place + 32) result }
{
    bits_of_8(book, place)
        | bits_of_8(book, place + 8)
        | bits_of_8(book, place + 16)
        | bits_of_8(book, place + 24)
}

pub fn bits_of_all(book: &[u8]) -> u64
    requires { length book.now ≡ book_size }
    ensures { BitsOf book.now 0 book_words result }
{
    let mut bits: u64 = 0;
    for i in 0..14usize {
        let place = 96 * i;
        bits = bits
            | bits_of_32(book, place)
            | bits_of_32(book, place + 32)
            | bits_of_32(book, place + 64);
    }
    bits | bits_of_32(book, 1_336)
}
