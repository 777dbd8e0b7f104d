// Prints a statement, charge records of kinds 4 and 6 from standard input, as a table of comma-separated values on standard output.
// This program only reads, takes turns and writes; what a turn does, and what it prints, is the library's.
#![tactic(auto)]

ghost use Rattle.print_statement.specs.Clauses.{Running, StepTaken, Begun};

use csv_table::rows::put_header;
use csv_table::turns::{ROOM, Turn, take_turn};
use std::io;
use std::io::Read;
use std::process::ExitCode;
use streams::flow::{Flow, INPUT, Next, OUTPUT, Run, go_on, make_room, read_more};
use streams::output::{status_after, write};
use text::output::Output;

// A turn, and what it asks for: bytes read, or bytes to be written. What turns carry on is the number of the records so far.
fn take_step<F: Read>(
    rt: &impl Eprint,
    stdin: &mut F,
    input: &mut [u8],
    out: &mut Output<OUTPUT>,
    run: Run<u64>,
) -> Next<u64>
    requires { Running input.old out.old run }
    ensures { StepTaken run input.old out.old input.new out.new result }
{
    let Run { flow, carried } = run;
    match take_turn(&input[flow.from..flow.to], flow.more, out, carried) {
        Turn::More => go_on(read_more(rt, stdin, input, flow), carried),
        Turn::On { used, number } => {
            let on = Flow {
                from: flow.from + used,
                ..flow
            };
            go_on(make_room(ROOM, out.len(), on), number)
        }
        Turn::Over => Next::Last,
    }
}

// Turn after turn, until the run is over. All that is written is written here, as each step tells it: this loop and `write` are trusted.
// (A twin of `settle_roll`'s loop: a step of each has arguments of its own, and of a closure over them a proof would know nothing.)
fn print_all<F: Read>(
    rt: &(impl Print + Eprint),
    stdin: &mut F,
    input: &mut [u8],
    out: &mut Output<OUTPUT>,
    first: Run<u64>,
) -> io::Result<()>
    requires { Begun input.old out.old first }
{
    let mut run = first;
    loop {
        match take_step(rt, stdin, input, out, run) {
            Next::On(on) => {
                run = on;
            }
            Next::Write(on) => {
                out.hand_over(|text| write(rt, text))?;
                run = on;
            }
            Next::Last => {
                return write(rt, out.as_slice());
            }
        }
    }
}

fn main(rt: HostRuntime) -> ExitCode {
    let mut input = [0u8; INPUT];
    let mut out = Output::<OUTPUT>::new();
    put_header(&mut out);
    let first = Run {
        flow: Flow {
            from: 0,
            to: 0,
            more: true,
        },
        carried: 0,
    };
    status_after(print_all(&rt, &mut rt.stdin(), &mut input, &mut out, first))
}
