// What each payer is charged, added up over records, and one roll's sums less another's.
ghost use Rattle.std.specs.Prelude.{◌≡◌, ◌+◌, ◌*◌, ◌^◌, ◌≤◌, length, get_or, drop, ◌++◌};
ghost use Rattle.wire.specs.Number.{put_le};
ghost use Rattle.statement.specs.Record.{most_parts};
ghost use Rattle.statement.specs.Clauses.{RecordAt};
ghost use Rattle.corrections.specs.Corrections.{paid_in, paid_over, payers, less, differences_size, differences_from};
ghost use Rattle.corrections.specs.Clauses.{AtMost, Added, charges_to, Addable, Readable};

use statement::reading::{adults_at, bicycles_at, charge_at, children_at, size_at};
use wire::put_four;

// Payers 0 to 20 are the riders by their numbers: account holder, adults, children; 21 to 30 are the bicycles.
const FIRST_CHILD: usize = 11;

const FIRST_BICYCLE: usize = 21;

pub const PAYERS: usize = 31;

// The differences: 8 bytes for each payer.
pub const DIFFERENCES: usize = 8 * PAYERS;

// Charges of a record that stand together, each added to its payer's sum: `count` of them from charge `charge` on, to the payers from `payer` on.
fn add_charges(
    sums: &mut [u64; PAYERS],
    payer: usize,
    statement: &[u8],
    place: usize,
    charge: usize,
    count: usize,
)
    requires { Addable sums.old statement.now place charge count payer }
    ensures { Added (charges_to statement.now place charge count payer) (2 ^ 32) sums.old sums.new }
{
    for k in 0..count {
        sums[payer + k] = sums[payer + k] + charge_at(statement, place, charge + k) as u64;
    }
}

// A record's charges: those of holder and adults, of children, and of bicycles.
fn add_record(sums: &mut [u64; PAYERS], statement: &[u8], place: usize)
    requires { RecordAt statement.now place × AtMost (2 ^ 62) sums.old }
    ensures { Added (paid_in statement.now place) (2 ^ 32) sums.old sums.new }
{
    let adults = 1 + adults_at(statement, place) as usize;
    let children = children_at(statement, place) as usize;
    let bicycles = bicycles_at(statement, place) as usize;
    add_charges(sums, 0, statement, place, 0, adults);
    add_charges(sums, FIRST_CHILD, statement, place, adults, children);
    add_charges(
        sums,
        FIRST_BICYCLE,
        statement,
        place,
        adults + children,
        bicycles,
    );
}

// Those of a statement of one or two records, which are its first `size` bytes; of a refused trip there is none.
pub fn add_statement(sums: &mut [u64; PAYERS], statement: &[u8], size: usize)
    requires { Readable sums.old statement.now size }
    ensures { Added (paid_over statement.now size) (most_parts * 2 ^ 32) sums.old sums.new }
{
    let mut next: usize = 0;
    while next < size {
        add_record(sums, statement, next);
        next = next + size_at(statement, next);
    }
}

// A sum less another one, in two's complement.
fn less(new: u64, old: u64) -> u64
    ensures { result ≡ less new old }
{
    if new < old {
        return u64::MAX - (old - new) + 1;
    }
    new - old
}

// A number of 8 bytes at a place.
fn put_eight(b: &mut [u8], at: usize, v: u64)
    requires { at + 8 ≤ length b.old }
    ensures { b.new ≡ put_le 8 b.old at v }
{
    put_four(b, at, (v % 4_294_967_296) as u32);
    put_four(b, at + 4, (v / 4_294_967_296) as u32);
}

// Each payer's new sum less the old one, by number.
pub fn put_differences(differences: &mut [u8], old: &[u64; PAYERS], new: &[u64; PAYERS])
    requires { differences_size ≤ length differences.old }
    ensures { differences.new ≡ differences_from payers 0 (λ payer. get_or old.now payer 0)
        (λ payer. get_or new.now payer 0) ++ drop differences_size differences.old }
{
    for payer in 0..PAYERS {
        put_eight(differences, 8 * payer, less(new[payer], old[payer]));
    }
}
