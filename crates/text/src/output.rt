// What is printed, put together piece behind piece in a room of a fixed size. A contract sees the bytes that were put so far.
ghost use Rattle.std.specs.Prelude.{◌≡◌, ℕ, ◌+◌, ◌≤◌, ◌<◌, List, [], ◌∷◌, ◌++◌, length, take};
ghost use Rattle.std.specs.Fn.{FnOnceReturnsAt};
ghost use Rattle.text.specs.Texts.{decimal};
ghost use Rattle.text.specs.Fours.{four, word_of};
ghost use Rattle.text.specs.Clauses.{Put};

use crate::{behind, fours};
use std::marker::Model;

#[derive(Drop)]
pub struct Output<const N: usize> {
    room: [u8; N],
    end: usize,
}

impl<const N: usize> Model for Output<N> {
    ghost Value = { List ℕ };

    ghost view = { λ o. take o.end o.room };

    ghost invariant = { λ o. o.end ≤ N };
}

impl<const N: usize> Output<N> {
    pub fn new() -> Self
        ensures { result ≡ [] }
    {
        Output {
            room: [0; N],
            end: 0,
        }
    }

    pub fn len(&self) -> usize
        ensures { result ≡ length self.now }
    {
        self.end
    }

    pub fn as_slice(&self) -> &[u8]
        ensures { result.now ≡ self.now }
    {
        &self.room[..self.end]
    }

    pub fn clear(&mut self)
        ensures { self.new ≡ [] }
    {
        self.end = 0;
    }

    // All that was put is handed over at once, and the output is empty then. Something has to be held: so what was put cannot be cleared, by a slip,
    // before it is handed over.
    pub fn hand_over<R, F: FnOnce(&[u8]) -> R>(&mut self, to: F) -> R
        requires callable { F.IsAlwaysCallable to }
        requires some { 0 < length self.old }
        ensures handed { FnOnceReturnsAt F.FnOnce to self.old result }
        ensures emptied { self.new ≡ [] }
    {
        let answer = to(self.as_slice());
        self.clear();
        answer
    }

    pub fn put_byte(&mut self, byte: u8)
        requires { length self.old + 1 ≤ N }
        ensures { Put (byte ∷ []) 1 self.old self.new }
    {
        self.end = behind::put_byte(&mut self.room, self.end, byte);
    }

    pub fn put_text(&mut self, text: &[u8])
        requires { length self.old + length text.now ≤ N }
        ensures { Put text.now (length text.now) self.old self.new }
    {
        self.end = behind::put_text(&mut self.room, self.end, text);
    }

    // A number's digits.
    pub fn put_number(&mut self, number: u64)
        requires { length self.old + 21 ≤ N }
        ensures { Put (decimal number) 21 self.old self.new }
    {
        self.end = behind::put_number(&mut self.room, self.end, number);
    }

    // A text and a number behind it.
    pub fn put_named(&mut self, text: &[u8], number: u64)
        requires { length self.old + length text.now + 21 ≤ N }
        ensures { Put (text.now ++ decimal number) (length text.now + 21) self.old self.new }
    {
        self.put_text(text);
        self.put_number(number);
    }

    // The digits of a number of 32 bits.
    pub fn put_small(&mut self, number: u32)
        requires { length self.old + 10 ≤ N }
        ensures { Put (decimal number) 10 self.old self.new }
    {
        self.end = fours::put_small(&mut self.room, self.end, number);
    }

    // The digits of a number that has eight at most.
    pub fn put_up_to_eight(&mut self, number: u32)
        requires { (number < 100000000) × (length self.old + 8 ≤ N) }
        ensures { Put (decimal number) 8 self.old self.new }
    {
        self.end = fours::put_up_to_eight(&mut self.room, self.end, number);
    }

    // A number of four digits at most, which are at hand (`fours_of`), and a mark behind it. Eight bytes are put at once, so that room for them is asked.
    pub fn put_four(&mut self, number: u64, digits: u64, mark: u8)
        requires { (number < 10000) × ((digits ≡ word_of (four number)) × (length self.old + 8 ≤ N)) }
        ensures { Put (decimal number ++ (mark ∷ [])) 5 self.old self.new }
    {
        self.end = fours::put_four(&mut self.room, self.end, number, digits, mark);
    }
}
