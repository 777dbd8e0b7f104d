// Factor records one after another, found without a look at what else could stand there: after the state's most records, up to as many as are
// due, are factor records. Whatever is wrong, and whatever is no factor record, is for the loop over the records (lib.rt).
//
// Why it is right: length and kind of a record are compared as one number with those of a factor record, and its values are looked at by the
// very function that the loop over the records asks. Where a factor record is not found, nothing is said, and that loop decides.
ghost use Rattle.std.specs.Prelude.{◌<◌, ◌≤◌};
ghost use Rattle.scan.specs.FactorRuns.{FactorsPassed, FactorNext, FactorFound};

use crate::area_run::Run;
use layout::Counts;
use layout::fields::{FACTOR_SIZE, factor_fields};
use layout::rules::factor_right;
use wire::four_at;

// The length and the kind of a factor record as one number.
const FACTOR_HEAD: u32 = 327_684;

// Whether a faultless factor record follows, of those that are due.
fn factor_found(b: &[u8], run: Run) -> bool
    requires { FactorsPassed b.now run }
    ensures { FactorFound b.now run result }
{
    let at = run.at;
    let so_far = run.so_far;
    if (so_far.factors < run.due) & (FACTOR_SIZE <= b.len() - at) {
        return (four_at(b, at) == FACTOR_HEAD) & factor_right(factor_fields(b, at), so_far.factors);
    }
    false
}

// Past a factor record.
pub fn after_factor(b: &[u8], run: Run) -> Run
    requires { FactorNext b.now run }
    ensures { FactorsPassed b.now result × (run.at < result.at) }
{
    let so_far = run.so_far;
    Run {
        at: run.at + FACTOR_SIZE,
        so_far: Counts {
            areas: so_far.areas,
            factors: so_far.factors + 1,
            stops: so_far.stops,
            longs: so_far.longs,
        },
        due: run.due,
    }
}

// Past all factor records that are found from there on.
pub fn factors_found(b: &[u8], from: Run) -> Run
    requires { FactorsPassed b.now from }
    ensures { FactorsPassed b.now result × (from.at ≤ result.at) }
{
    let mut run = from;
    while factor_found(b, run) {
        run = after_factor(b, run);
    }
    run
}
