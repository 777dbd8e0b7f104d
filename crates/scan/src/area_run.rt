// Areas one after another, found without a look at what else could stand there: after the first area most records are areas. Whatever is
// wrong, and whatever is no area, is for the loop over the records (lib.rt).
//
// Why it is right: length and kind of a record are compared as one number with those of both kinds of area, the prices are looked at together
// (price_words.rt), and so are the caps and what kind 8 has besides (cap_words.rt); the area's place is for the very function that the loop over
// the records asks. Where an area is not found, nothing is said, and that loop decides.
ghost use Rattle.std.specs.Prelude.{◌<◌, ◌≤◌, length};
ghost use Rattle.layout.specs.Layout.{most_areas};
ghost use Rattle.scan.specs.AreaRuns.{AreasPassed, AreaNext, KindFound, AreaFound};

use crate::cap_words::{caps_found, long_found};
use crate::price_words::prices_found;
use layout::Counts;
use layout::fields::{
    AACHEN_KIND, AREA_SIZE, COMMON_KIND, LONG_MORE, MOST_AREAS, area_fields, level_at, long_of,
};
use layout::rules::{place_right, wide_with};
use wire::four_at;

// Where the areas so far end, with how many factor records are due for them.
#[derive(Clone, Copy)]
pub struct Run {
    pub at: usize,
    pub so_far: Counts,
    pub due: u8,
}

// The length and the kind of an area record as one number, of either kind.
const COMMON_HEAD: u32 = 65_563;

const AACHEN_HEAD: u32 = 524_328;

// The kind of the area record at a place, whole and of its kind's length; 0 where none is found.
fn kind_found(b: &[u8], at: usize) -> u16
    requires { at ≤ length b.now }
    ensures { KindFound b.now at result }
{
    let left = b.len() - at;
    if left < AREA_SIZE {
        return 0;
    }
    let head = four_at(b, at);
    if head == COMMON_HEAD {
        return COMMON_KIND;
    }
    if (head == AACHEN_HEAD) & (AREA_SIZE + LONG_MORE <= left) {
        return AACHEN_KIND;
    }
    0
}

// Whether it is a faultless area.
fn area_found(b: &[u8], run: Run, kind: u16) -> bool
    requires { AreasPassed b.now run × (run.so_far.areas < most_areas) × KindFound b.now run.at kind }
    ensures { AreaFound b.now run kind result }
{
    if kind == 0 {
        return false;
    }
    let at = run.at;
    let so_far = run.so_far;
    if !prices_found(b, at) {
        return false;
    }
    if !caps_found(b, at) {
        return false;
    }
    let f = area_fields(b, at);
    // A branch, and not a call with the kind: so the record's length is known on each way, and the next place need not wait for it.
    if kind == AACHEN_KIND {
        if !long_found(b, at) {
            return false;
        }
    }
    place_right(b, so_far, kind, f)
}

// Past an area.
pub fn after_area(b: &[u8], run: Run, kind: u16) -> Run
    requires { AreaNext b.now run kind }
    ensures { AreasPassed b.now result × (run.at < result.at) }
{
    let at = run.at;
    let so_far = run.so_far;
    let long = long_of(kind);
    Run {
        at: at + AREA_SIZE + LONG_MORE * long,
        so_far: Counts {
            areas: so_far.areas + 1,
            factors: so_far.factors,
            stops: so_far.stops,
            longs: ((long as u32) << so_far.areas) + so_far.longs,
        },
        due: wide_with(level_at(b, at), run.due),
    }
}

// Past all areas that are found from there on.
pub fn areas_found(b: &[u8], from: Run) -> Run
    requires { AreasPassed b.now from }
    ensures { AreasPassed b.now result × (from.at ≤ result.at) }
{
    let mut run = from;
    while (run.so_far.areas as u16) < MOST_AREAS {
        let kind = kind_found(b, run.at);
        if !area_found(b, run, kind) {
            break;
        }
        run = after_area(b, run, kind);
    }
    run
}
