// A turn of a run: what stands at the start of the bytes that have come, settled, counted and put into the output.
ghost use Rattle.std.specs.Prelude.{◌+◌, ◌≤◌, true, false, length};
ghost use Rattle.roll.specs.declared.Line.TheVariants.{Refused};
ghost use Rattle.deciding.specs.Clauses.{Ready};
ghost use Rattle.roll.specs.Clauses.{StatementRoom, line_cents, most_line_cents};
ghost use Rattle.lines.specs.Clauses.{most_turn, Counting, LineTaken, Turned};

use crate::tally::{Tally, count};
use crate::texts::{put_line, put_refused, put_tail};
use editions::Editions;
use roll::{Line, MOST_RECORDS, Step, next};
use text::output::Output;

// The room that a turn takes at most: the lines of two parts, and the tail behind them.
pub const ROOM: usize = 384;

// What a turn comes to.
#[derive(Clone, Copy)]
pub enum Turn {
    // the record is not whole yet, and more can come
    More,
    // a record was settled, and its lines were put: the bytes that it used, and the tally with it
    On { used: usize, tally: Tally },
    // the run is over: the tail was put
    Over,
}

// What is printed of a record, behind the others. The run is over with the last record there can be, and the tail then stands behind it.
fn take_line<const N: usize>(out: &mut Output<N>, tally: Tally, line: Line, used: usize) -> Turn
    requires { (length out.old + most_turn ≤ N) × (Counting tally × (line_cents line ≤ most_line_cents)) }
    ensures { LineTaken tally line used false out.old out.new result }
{
    let after = count(tally, line);
    let number = after.accepted + after.refused;
    put_line(out, number, line);
    if number == MOST_RECORDS {
        put_tail(out, after);
        return Turn::Over;
    }
    Turn::On { used, tally: after }
}

// A broken frame is refused with 5, and the run is over with it. It has no share in the code above, which then need not be told that it is the
// last one, and takes a record's line as it comes.
fn take_broken<const N: usize>(out: &mut Output<N>, tally: Tally) -> Turn
    requires { (length out.old + most_turn ≤ N) × Counting tally }
    ensures { LineTaken tally (Refused 5) 0 true out.old out.new result }
{
    let after = count(tally, Line::Refused(5));
    put_refused(out, after.accepted + after.refused, 5);
    put_tail(out, after);
    Turn::Over
}

// What stands at the start of a piece, and what it comes to on the book; `more` says whether the roll can go on behind the piece. The
// statement is lent for a record's.
pub fn take_turn<const N: usize>(
    file: &[u8],
    editions: Editions,
    book: &mut [u8],
    piece: &[u8],
    more: bool,
    statement: &mut [u8],
    out: &mut Output<N>,
    tally: Tally,
) -> Turn
    requires { Ready file.now editions book.old × ((length out.old + most_turn ≤ N) × (Counting tally × StatementRoom statement.old)) }
    ensures { Turned file.now editions book.old piece.now more tally
        out.old book.new out.new result }
{
    match next(file, editions, book, piece, more, statement) {
        Step::More => Turn::More,
        Step::Record { line, used } => take_line(out, tally, line, used),
        Step::Broken => take_broken(out, tally),
        Step::End => {
            put_tail(out, tally);
            Turn::Over
        }
    }
}
