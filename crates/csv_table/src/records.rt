// All lines of a record, put behind what was put before.
ghost use Rattle.std.specs.Prelude.{◌+◌, ◌≤◌, length};
ghost use Rattle.reader.specs.Fields.{charges_of};
ghost use Rattle.reader.specs.Reading.{fields_for, read_at};
ghost use Rattle.text.specs.Clauses.{Put};
ghost use Rattle.csv_table.specs.Text.{rows_text, record_text};
ghost use Rattle.csv_table.specs.Clauses.{most_turn, Tells};

use crate::rows::{put_refused, put_row};
use reader::charges::{amount_at, charges_of};
use reader::records::read_record;
use reader::{Head, Read, Whose};
use text::output::Output;

// A line for each charge.
fn put_rows<const N: usize>(
    out: &mut Output<N>,
    number: u64,
    whole: &[u8],
    head: Head,
    whose: Whose,
)
    requires { (length out.old + most_turn ≤ N) × Tells whole.now head whose }
    ensures { Put (rows_text number (fields_for whole.now 0 whose) (charges_of whose)) most_turn out.old out.new }
{
    for i in 0..charges_of(whose) {
        let amount = amount_at(whole, 0, whose, i);
        put_row(out, number, head, whose, i, amount);
    }
}

// What reading a record comes to: its lines, or the line of its refusal.
pub fn put_record<const N: usize>(out: &mut Output<N>, number: u64, whole: &[u8])
    requires { length out.old + most_turn ≤ N }
    ensures { Put (record_text number (read_at whole.now 0)) most_turn out.old out.new }
{
    match read_record(whole, 0) {
        Read::Refused(refusal) => put_refused(out, number, refusal),
        Read::Record {
            size: _,
            head,
            whose,
        } => put_rows(out, number, whole, head, whose),
    }
}
