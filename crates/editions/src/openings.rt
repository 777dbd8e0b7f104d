// The record that opens an edition: kind 9, with the date from which it is valid.
ghost use Rattle.std.specs.Prelude.{◌≡◌, ◌+◌, ◌≤◌, length};
ghost use Rattle.editions.specs.Openings.{opening_size, opening_at, opens_at, since_at};

use calendar::{first_minute, is_date};
use units::Minutes;
use wire::{Frame, HEAD, frame_at, one_at, two_at};

const EDITION_KIND: u16 = 9;

const OPENING_BODY: usize = 4;
// The whole record, with its length and kind.
pub const OPENING_SIZE: usize = HEAD + OPENING_BODY;

// What stands where an edition has to begin: a fault (1, 2 or 3), or the first minute from which it is valid.
#[derive(Clone, Copy)]
pub enum Opening {
    Faulty(u8),
    Since(Minutes),
}

// Whether a record of kind 9 stands at a place, whatever its body is.
pub fn opens_at(file: &[u8], at: usize) -> bool
    ensures { result ≡ opens_at file.now at }
{
    match frame_at(file, at) {
        Frame::Broken => false,
        Frame::Whole { kind, body } => kind == EDITION_KIND,
    }
}

// The date of an opening record: the first minute of the day, which is not before another.
fn since_at(file: &[u8], at: usize, least: u32) -> Opening
    requires { at + opening_size ≤ length file.now }
    ensures { result ≡ since_at file.now at least }
{
    let year = two_at(file, at + 4);
    let month = one_at(file, at + 6);
    let day = one_at(file, at + 7);
    if !is_date(year, month, day) {
        return Opening::Faulty(3);
    }
    let since = first_minute(year, month, day);
    if since.0 < least {
        return Opening::Faulty(3);
    }
    Opening::Since(since)
}

// What stands at a place where an edition has to begin, no earlier than a minute.
pub fn opening_at(file: &[u8], at: usize, least: u32) -> Opening
    ensures { result ≡ opening_at file.now at least }
{
    if file.len() <= at {
        return Opening::Faulty(2);
    }
    match frame_at(file, at) {
        Frame::Broken => Opening::Faulty(1),
        Frame::Whole { kind, body } => {
            if (kind == EDITION_KIND) & (body == OPENING_BODY) {
                since_at(file, at, least)
            } else {
                Opening::Faulty(2)
            }
        }
    }
}
