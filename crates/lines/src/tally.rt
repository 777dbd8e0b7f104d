// What a run has come to so far.
ghost use Rattle.std.specs.Prelude.{◌≤◌};
ghost use Rattle.roll.specs.Clauses.{line_cents, most_line_cents};
ghost use Rattle.lines.specs.Clauses.{Counting, Counted};

use roll::Line;

// The records so far, and the sum of their charges.
#[derive(Clone, Copy)]
pub struct Tally {
    pub accepted: u32,
    pub refused: u32,
    pub cents: u64,
}

// One record more, of one part or of two.
pub fn count(tally: Tally, line: Line) -> Tally
    requires { Counting tally × (line_cents line ≤ most_line_cents) }
    ensures { Counted tally line result }
{
    match line {
        Line::Charged(entry) => Tally {
            accepted: tally.accepted + 1,
            cents: tally.cents + entry.cents,
            ..tally
        },
        Line::Both(one, other) => Tally {
            accepted: tally.accepted + 1,
            cents: tally.cents + one.cents + other.cents,
            ..tally
        },
        Line::Refused(_) => Tally {
            refused: tally.refused + 1,
            ..tally
        },
    }
}
