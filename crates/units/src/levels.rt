// Ticket levels: 0 is none, 1 to 5 are K, A, B, C and D, and there is no other.
ghost use Rattle.std.specs.Prelude.{◌≡◌, leb};
ghost use Rattle.units.specs.Levels.{level_cap};

use crate::Cents;

// What a ticket level picks of an area's five amounts.
#[derive(Clone, Copy)]
pub enum LevelCap {
    NoCap,
    UpTo(Cents),
    Refused,
}

pub fn level_cap(k: Cents, a: Cents, b: Cents, c: Cents, d: Cents, level: u8) -> LevelCap
    ensures { result ≡ level_cap k a b c d level }
{
    match level {
        0 => LevelCap::NoCap,
        1 => LevelCap::UpTo(k),
        2 => LevelCap::UpTo(a),
        3 => LevelCap::UpTo(b),
        4 => LevelCap::UpTo(c),
        5 => LevelCap::UpTo(d),
        6..=255 => LevelCap::Refused,
    }
}

// Whether a number is a ticket level: the same classification, whatever the amounts are.
pub fn is_level(level: u8) -> bool
    ensures { result ≡ leb level 5 }
{
    match level_cap(Cents(0), Cents(0), Cents(0), Cents(0), Cents(0), level) {
        LevelCap::Refused => false,
        LevelCap::NoCap => true,
        LevelCap::UpTo(_) => true,
    }
}
