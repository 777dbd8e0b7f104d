// The first fault of any byte string offered as a tariff, or its counts: the loop over its records, in which the first faulty one decides.
//
// area_run.rt     areas one after another, without a look at what else could stand there
// price_words.rt  an area's prices at once
// cap_words.rt    an area's caps at once, and what kind 8 has besides
// factor_run.rt   factor records one after another, as the areas
// blocks.rt       stops one after another, all with one test
#![tactic(auto)]

ghost use Rattle.std.specs.Prelude.{◌≡◌, ◌+◌, ◌-◌, ◌/◌, ◌≤◌, min, length};
ghost use Rattle.layout.specs.Layout.{stop_size, most_stops};
ghost use Rattle.layout.specs.Rules.{factors_due};
ghost use Rattle.layout.specs.Scan.{Reached, area_entry, factor_entry, stop_entry, entry_at, read_tariff};
ghost use Rattle.scan.specs.Halts.{halt_of, fault_at};

use crate::area_run::{Run, after_area, areas_found};
use crate::blocks::stops_standing;
use crate::factor_run::{after_factor, factors_found};
use layout::fields::{
    AACHEN_KIND, AREA_BODY, COMMON_KIND, FACTOR_BODY, FACTOR_KIND, LONG_MORE, MOST_AREAS,
    MOST_STOPS, STOP_BODY, STOP_KIND, STOP_SIZE, area_fields, factor_fields, long_of, stop_fields,
};
use layout::rules::{caps_right, factor_right, place_right, prices_right, rest_right, stop_right};
use layout::{Counts, Entry, Reading};
use wire::{Frame, frame_at};

pub mod area_run;
pub mod blocks;
pub mod cap_words;
pub mod factor_run;
pub mod price_words;

// Where the reading of a tariff stops: at its end, with its counts; at its first faulty record behind a tariff that is faultless alone, with
// that one's counts; or amid a tariff, while an area or a factor record is still due.
#[derive(Clone, Copy)]
pub enum Halt {
    End(Counts),
    Behind {
        number: u8,
        at: usize,
        before: Counts,
    },
    Amid {
        number: u8,
        at: usize,
    },
}

// An area record of a kind with a whole frame, after those so far.
fn area_entry(b: &[u8], at: usize, so_far: Counts, kind: u16, body: usize) -> Entry
    requires { Reached b.now at so_far × (at + 4 + body ≤ length b.now) }
    ensures { result ≡ area_entry b.now at so_far kind body }
{
    if (body == AREA_BODY + LONG_MORE * long_of(kind))
        & (so_far.factors == 0)
        & (so_far.stops == 0)
        & ((so_far.areas as u16) < MOST_AREAS)
    {
        let f = area_fields(b, at);
        if prices_right(f)
            & caps_right(f)
            & place_right(b, so_far, kind, f)
            & rest_right(b, at, kind, f)
        {
            Entry::Area(kind)
        } else {
            Entry::Faulty(3)
        }
    } else {
        Entry::Faulty(2)
    }
}

// A factor record with a whole frame, after those so far, of so many that are due.
fn factor_entry(b: &[u8], at: usize, so_far: Counts, due: u8, body: usize) -> Entry
    requires { (due ≡ factors_due b.now so_far) × (at + 4 + body ≤ length b.now) }
    ensures { result ≡ factor_entry b.now at so_far body }
{
    if (body == FACTOR_BODY) & (so_far.stops == 0) & (so_far.factors < due) {
        if factor_right(factor_fields(b, at), so_far.factors) {
            Entry::Factor
        } else {
            Entry::Faulty(3)
        }
    } else {
        Entry::Faulty(2)
    }
}

// A stop record with a whole frame, after those so far, with so many factor records due.
fn stop_entry(b: &[u8], at: usize, so_far: Counts, due: u8, body: usize) -> Entry
    requires { (due ≡ factors_due b.now so_far) × (at + 4 + body ≤ length b.now) }
    ensures { result ≡ stop_entry b.now at so_far body }
{
    if (body == STOP_BODY)
        & (0 < so_far.areas)
        & (so_far.factors == due)
        & (so_far.stops < MOST_STOPS)
    {
        if stop_right(stop_fields(b, at), so_far.areas) {
            Entry::Stop
        } else {
            Entry::Faulty(3)
        }
    } else {
        Entry::Faulty(2)
    }
}

// What stands at the place that the records so far reach, with so many factor records due.
pub fn entry_at(b: &[u8], at: usize, so_far: Counts, due: u8) -> Entry
    requires { Reached b.now at so_far × (due ≡ factors_due b.now so_far) }
    ensures { result ≡ entry_at b.now at so_far }
{
    if b.len() <= at {
        if (so_far.areas == 0) | (so_far.factors < due) {
            return Entry::Faulty(2);
        }
        return Entry::End;
    }
    match frame_at(b, at) {
        Frame::Broken => Entry::Faulty(1),
        Frame::Whole { kind, body } => {
            if (kind == COMMON_KIND) | (kind == AACHEN_KIND) {
                area_entry(b, at, so_far, kind, body)
            } else if kind == FACTOR_KIND {
                factor_entry(b, at, so_far, due, body)
            } else if kind == STOP_KIND {
                stop_entry(b, at, so_far, due, body)
            } else {
                Entry::Faulty(2)
            }
        }
    }
}

// How many stops more there is room for: in the bytes that are left, and up to the most stops.
fn stops_due(left: usize, stops: u16) -> usize
    requires { stops ≤ most_stops }
    ensures { result ≡ min (left / stop_size) (most_stops - stops) }
{
    let room = left / STOP_SIZE;
    let due = (MOST_STOPS - stops) as usize;
    if room <= due { room } else { due }
}

// A fault at a place, after so many records, with so many factor records due.
fn fault_at(number: u8, at: usize, so_far: Counts, due: u8) -> Halt
    ensures { result ≡ fault_at number at so_far due }
{
    let lacking = (so_far.areas == 0) | (so_far.factors < due);
    if lacking {
        Halt::Amid { number, at }
    } else {
        Halt::Behind {
            number,
            at,
            before: so_far,
        }
    }
}

// Where the reading of any byte string offered as a tariff stops.
pub fn halt_of(tariff: &[u8]) -> Halt
    ensures { result ≡ halt_of tariff.now }
{
    let mut at = 0;
    let mut so_far = Counts {
        areas: 0,
        factors: 0,
        stops: 0,
        longs: 0,
    };
    let mut due = 0;
    loop {
        match entry_at(tariff, at, so_far, due) {
            Entry::End => {
                break Halt::End(so_far);
            }
            Entry::Faulty(number) => {
                break fault_at(number, at, so_far, due);
            }
            Entry::Area(kind) => {
                let run = areas_found(tariff, after_area(tariff, Run { at, so_far, due }, kind));
                at = run.at;
                so_far = run.so_far;
                due = run.due;
            }
            Entry::Factor => {
                let run = factors_found(tariff, after_factor(tariff, Run { at, so_far, due }));
                at = run.at;
                so_far = run.so_far;
                due = run.due;
            }
            Entry::Stop => {
                at += STOP_SIZE;
                so_far.stops += 1;
                let stops = stops_standing(
                    tariff,
                    at,
                    so_far.areas as u16,
                    stops_due(tariff.len() - at, so_far.stops),
                );
                at += STOP_SIZE * stops;
                so_far.stops += stops as u16;
            }
        }
    }
}

// The first fault of any byte string offered as a tariff, or its counts.
pub fn read_tariff(tariff: &[u8]) -> Reading
    ensures { result ≡ read_tariff tariff.now }
{
    match halt_of(tariff) {
        Halt::End(counts) => Reading::Faultless(counts),
        Halt::Behind { number, at, before } => Reading::Fault { number, at },
        Halt::Amid { number, at } => Reading::Fault { number, at },
    }
}
