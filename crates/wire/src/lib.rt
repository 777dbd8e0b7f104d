// Little-endian numbers of 1, 2, 4 and 8 bytes at a place of a slice, and the frame that every record stands in.
#![tactic(auto)]

ghost use Rattle.std.specs.Prelude.{◌≡◌, ◌+◌, ◌≤◌, ◌<◌, length};
ghost use Rattle.wire.specs.Number.{put_le, Number};
ghost use Rattle.wire.specs.Frame.{frame_at};

pub mod writer;

// A record's length and kind, two bytes each, stand before its body.
pub const HEAD: usize = 4;
// What a record's length is at most, and so the whole record.
const MOST_LENGTH: usize = 1_024;

pub const LONGEST_RECORD: usize = 2 + MOST_LENGTH;

// What stands at a place: a whole record of a kind, with its body's length, or a broken frame.
#[derive(Clone, Copy)]
pub enum Frame {
    Whole { kind: u16, body: usize },
    Broken,
}

fn wide(x: u8) -> u32
    ensures { (result ≡ x) × (result < 256) }
{
    x as u32
}

pub fn one_at(b: &[u8], at: usize) -> u8
    requires { at + 1 ≤ length b.now }
    ensures { Number 1 b.now at result }
{
    b[at]
}

pub fn two_at(b: &[u8], at: usize) -> u16
    requires { at + 2 ≤ length b.now }
    ensures { Number 2 b.now at result }
{
    (wide(b[at]) + 256 * wide(b[at + 1])) as u16
}

pub fn four_at(b: &[u8], at: usize) -> u32
    requires { at + 4 ≤ length b.now }
    ensures { Number 4 b.now at result }
{
    wide(b[at]) + 256 * (wide(b[at + 1]) + 256 * (wide(b[at + 2]) + 256 * wide(b[at + 3])))
}

fn word(x: u8) -> u64
    ensures { (result ≡ x) × (result < 256) }
{
    x as u64
}

// The eight bytes are joined by "or", for of this form the compiler makes one load.
pub fn eight_at(b: &[u8], at: usize) -> u64
    requires { at + 8 ≤ length b.now }
    ensures { Number 8 b.now at result }
{
    word(b[at])
        | (word(b[at + 1]) * 256)
        | (word(b[at + 2]) * 65_536)
        | (word(b[at + 3]) * 16_777_216)
        | (word(b[at + 4]) * 4_294_967_296)
        | (word(b[at + 5]) * 1_099_511_627_776)
        | (word(b[at + 6]) * 281_474_976_710_656)
        | (word(b[at + 7]) * 72_057_594_037_927_936)
}

pub fn put_one(b: &mut [u8], at: usize, v: u8)
    requires { at + 1 ≤ length b.old }
    ensures { b.new ≡ put_le 1 b.old at v }
{
    b[at] = v;
}

pub fn put_two(b: &mut [u8], at: usize, v: u16)
    requires { at + 2 ≤ length b.old }
    ensures { b.new ≡ put_le 2 b.old at v }
{
    b[at] = (v % 256) as u8;
    let at1 = at + 1;
    let v1 = v / 256;
    b[at1] = (v1 % 256) as u8;
}

pub fn put_four(b: &mut [u8], at: usize, v: u32)
    requires { at + 4 ≤ length b.old }
    ensures { b.new ≡ put_le 4 b.old at v }
{
    b[at] = (v % 256) as u8;
    let at1 = at + 1;
    let v1 = v / 256;
    b[at1] = (v1 % 256) as u8;
    let at2 = at1 + 1;
    let v2 = v1 / 256;
    b[at2] = (v2 % 256) as u8;
    let at3 = at2 + 1;
    let v3 = v2 / 256;
    b[at3] = (v3 % 256) as u8;
}

// The frame at a place, of any byte string and at any place.
pub fn frame_at(b: &[u8], at: usize) -> Frame
    ensures { result ≡ frame_at b.now at }
{
    let end = b.len();
    if end < at {
        return Frame::Broken;
    }
    let left = end - at;
    if left < HEAD {
        return Frame::Broken;
    }
    let long = two_at(b, at) as usize;
    if (long < 2) | (MOST_LENGTH < long) | (left < 2 + long) {
        return Frame::Broken;
    }
    Frame::Whole {
        kind: two_at(b, at + 2),
        body: long - 2,
    }
}
