// A writer holds a lent slice and the place of the next byte, and puts one number after another. Each method that puts takes
// it apart, calls the function that puts the bytes, and hands it back with the place moved on. Use it as one chain,
// `Writer::new(slice, 0).two(a).four(b).end()`.
ghost use Rattle.std.specs.Prelude.{◌≡◌, ◌+◌, ◌≤◌, length};
ghost use Rattle.wire.specs.Writer.{stored};

use crate::{put_four, put_one, put_two};

#[derive(Drop)]
pub struct Writer<'a> {
    pub buf: &'a mut [u8],
    pub at: usize,
}

impl<'a> Writer<'a> {
    // The slice goes into the writer as it is lent.
    pub fn new(buf: &'a mut [u8], at: usize) -> Writer<'a>
        ensures { (result.buf ≡ buf.entry) × (result.at ≡ at) }
    {
        Writer { buf: buf, at: at }
    }

    pub fn one(self, v: u8) -> Writer<'a>
        requires { self.at + 1 ≤ length self.buf.now }
        ensures { result ≡ stored 1 self.entry v }
    {
        let at = self.at;
        put_one(&mut *self.buf, at, v);
        Writer {
            buf: self.buf,
            at: at + 1,
        }
    }

    pub fn two(self, v: u16) -> Writer<'a>
        requires { self.at + 2 ≤ length self.buf.now }
        ensures { result ≡ stored 2 self.entry v }
    {
        let at = self.at;
        put_two(&mut *self.buf, at, v);
        Writer {
            buf: self.buf,
            at: at + 2,
        }
    }

    pub fn four(self, v: u32) -> Writer<'a>
        requires { self.at + 4 ≤ length self.buf.now }
        ensures { result ≡ stored 4 self.entry v }
    {
        let at = self.at;
        put_four(&mut *self.buf, at, v);
        Writer {
            buf: self.buf,
            at: at + 4,
        }
    }

    // The place after the last byte put. The bytes stay as they are.
    pub fn end(self) -> usize
        ensures { (result ≡ self.entry.at) × (self.exit.0.now ≡ self.entry.buf.now) }
    {
        self.at
    }
}
