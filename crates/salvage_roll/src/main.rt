// Salvages a torn roll from standard input: what is kept goes to kept.bin in the folder that the program is run in, and what was dropped is printed.
// This program only reads and writes; what is kept, and what is printed, is the library's.
//
// input.rt   the roll's bytes
// files.rt   kept.bin: an earlier one removed, a new one made
#![tactic(auto)]

use files::{remove_earlier, save};
use input::read_roll;
use salvage::{LINES, ROLL, salvage};
use std::io;
use std::io::Read;
use std::process::ExitCode;
use std::rt::Files;
use streams::output::{status_after, write};
use text::output::Output;

mod files;
mod input;

// Salvages a roll, and hands over what comes of it: kept.bin first, and the lines only where it is there.
fn hand_over(
    rt: &(impl Files + Print + Eprint),
    roll: &mut [u8],
    lines: &mut Output<LINES>,
) -> io::Result<()> {
    if let Some(bytes) = salvage(roll, lines) {
        if save(rt, &roll[..bytes]).is_err() {
            return Ok(());
        }
    }
    write(rt, lines.as_slice())
}

// A byte more than a roll may have is enough to tell that it is too long.
fn salvage_input<F: Read>(rt: &(impl Files + Print + Eprint), stdin: &mut F) -> io::Result<()> {
    let mut roll = [0u8; ROLL + 1];
    let Ok(bytes) = read_roll(rt, stdin, &mut roll) else {
        return Ok(());
    };
    let mut lines = Output::<LINES>::new();
    hand_over(rt, &mut roll[..bytes], &mut lines)
}

fn main(rt: HostRuntime) -> ExitCode {
    if remove_earlier(&rt).is_err() {
        return ExitCode::SUCCESS;
    }
    status_after(salvage_input(&rt, &mut rt.stdin()))
}
