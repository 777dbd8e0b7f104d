// Settles a roll of trips: the tariff from tariff.bin, the roll from standard input, a line a record on standard output.
// This program only reads, takes turns and writes; what a turn does, and what it prints, is the library's.
//
// input.rt   the tariff's first bytes
// run.rt     the roll, turn by turn
#![tactic(auto)]

use editions::{DECIDING_BYTES, FileReading, read_file};
use input::load_tariff;
use lines::texts::put_fault;
use run::settle_roll;
use std::io;
use std::io::Read;
use std::process::ExitCode;
use streams::output::{status_after, write};
use text::output::Output;

mod input;
mod run;

// The one line of a refused tariff.
fn print_fault(rt: &(impl Print + Eprint), number: u8, at: usize) -> io::Result<()> {
    let mut out = Output::<64>::new();
    put_fault(&mut out, number, at);
    write(rt, out.as_slice())
}

// A refused tariff gives its one line; under any other the roll is settled.
fn settle_or_refuse<F: Read>(
    rt: &(impl Print + Eprint),
    stdin: &mut F,
    file: &[u8],
) -> io::Result<()> {
    match read_file(file) {
        FileReading::Fault { number, at } => print_fault(rt, number, at),
        FileReading::Faultless(editions) => settle_roll(rt, stdin, file, editions),
    }
}

fn main(rt: HostRuntime) -> ExitCode {
    let mut file = [0u8; DECIDING_BYTES];
    let Ok(bytes) = load_tariff(&rt, &mut file) else {
        return ExitCode::SUCCESS;
    };
    status_after(settle_or_refuse(&rt, &mut rt.stdin(), &file[..bytes]))
}
