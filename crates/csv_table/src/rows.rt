// The lines of the table, each put behind what was put before.
ghost use Rattle.std.specs.Prelude.{◌≡◌, ◌++◌, ◌+◌, ◌≤◌, ◌<◌, length};
ghost use Rattle.calendar.specs.Stamps.{last_minute};
ghost use Rattle.calendar.specs.Moments.{moment_of};
ghost use Rattle.statement.specs.Record.{most_charges};
ghost use Rattle.text.specs.Texts.{bytes};
ghost use Rattle.text.specs.Clauses.{Put};
ghost use Rattle.csv_table.specs.Text.{header, moment_text, rider_text, payer_text, is_person, row_text, refused_text};
ghost use Rattle.csv_table.specs.Clauses.{head_columns, cut_columns, most_row};

use crate::columns::{put_column, put_moment};
use calendar::moments::moment_of;
use caps::Cut;
use reader::{Amount, Head, Whose};
use text::output::Output;
use trip::Party;

// The first line.
pub fn put_header<const N: usize>(out: &mut Output<N>)
    requires { length out.old + 74 ≤ N }
    ensures { Put header 74 out.old out.new }
{
    out.put_text(b"record,opening,area,km,minutes,payer,cents,off,cap_area,cap_class,refused\n");
}

// The window's opening, as a moment of UTC.
fn put_opening<const N: usize>(out: &mut Output<N>, opening: u32)
    requires { (length out.old + 18 ≤ N) × (opening ≤ last_minute) }
    ensures { Put (bytes "," ++ moment_text (moment_of opening)) 18 out.old out.new }
{
    out.put_text(b",");
    put_moment(out, moment_of(opening));
}

// The record's number, the opening, area, kilometres and minutes.
fn put_start<const N: usize>(out: &mut Output<N>, number: u64, head: Head)
    requires { (length out.old + 72 ≤ N) × (head.opening.0 ≤ last_minute) }
    ensures { Put (head_columns number head) 72 out.old out.new }
{
    out.put_number(number);
    put_opening(out, head.opening.0);
    put_column(out, b",", head.area as u32);
    put_column(out, b",", head.km.0);
    put_column(out, b",", head.minutes.0);
}

// One of a party, by its place among the charges: the account holder, the adults, the children, the bicycles.
fn put_rider<const N: usize>(out: &mut Output<N>, party: Party, i: usize)
    requires { (length out.old + 19 ≤ N) × (i < most_charges) }
    ensures { Put (bytes "," ++ rider_text party i) 19 out.old out.new }
{
    let adults = party.adults as usize;
    let carried = adults + party.children as usize;
    if i == 0 {
        out.put_text(b",holder");
    } else if i <= adults {
        put_column(out, b",adult ", i as u32);
    } else if i <= carried {
        put_column(out, b",child ", (i - adults) as u32);
    } else {
        put_column(out, b",bicycle ", (i - carried) as u32);
    }
}

// Who pays.
fn put_payer<const N: usize>(out: &mut Output<N>, whose: Whose, i: usize)
    requires { (length out.old + 19 ≤ N) × (i < most_charges) }
    ensures { Put (bytes "," ++ payer_text whose i) 19 out.old out.new }
{
    match whose {
        Whose::Unsaid { charges: _ } => put_column(out, b",charge ", (i + 1) as u32),
        Whose::Of(party) => put_rider(out, party, i),
    }
}

// Whether a charge is a person's, of whom the record tells what caps took off.
fn is_person(whose: Whose, i: usize) -> bool
    ensures { result ≡ is_person whose i }
{
    match whose {
        Whose::Unsaid { charges: _ } => false,
        Whose::Of(party) => i < 1 + party.adults as usize + party.children as usize,
    }
}

// What caps took off; and where that is something, the named cap.
fn put_cut<const N: usize>(out: &mut Output<N>, person: bool, cut: Cut)
    requires { length out.old + 33 ≤ N }
    ensures { Put (cut_columns person cut) 33 out.old out.new }
{
    let off = cut.reduction.0;
    if !person {
        out.put_text(b",,,");
        return;
    }
    put_column(out, b",", off);
    if off == 0 {
        out.put_text(b",,");
        return;
    }
    put_column(out, b",", cut.area as u32);
    put_column(out, b",", cut.class as u32);
}

// The line of a charge, which is no refused record's: the last column is empty.
pub fn put_row<const N: usize>(
    out: &mut Output<N>,
    number: u64,
    head: Head,
    whose: Whose,
    i: usize,
    amount: Amount,
)
    requires { (length out.old + most_row ≤ N) × ((head.opening.0 ≤ last_minute) × (i < most_charges)) }
    ensures { Put (row_text number head whose i amount) most_row out.old out.new }
{
    put_start(out, number, head);
    put_payer(out, whose, i);
    put_column(out, b",", amount.charge.0);
    put_cut(out, is_person(whose, i), amount.cut);
    out.put_text(b",\n");
}

// The line of a refused record.
pub fn put_refused<const N: usize>(out: &mut Output<N>, number: u64, refusal: u8)
    requires { length out.old + most_row ≤ N }
    ensures { Put (refused_text number refusal) most_row out.old out.new }
{
    out.put_number(number);
    put_column(out, b",,,,,,,,,,", refusal as u32);
    out.put_text(b"\n");
}
