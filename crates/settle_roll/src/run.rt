// The roll, turn by turn, on one book.
ghost use Rattle.editions.specs.Reading.{ReadFile};
ghost use Rattle.roll.specs.Clauses.{StatementRoom};
ghost use Rattle.settle_roll.specs.Clauses.{Running, StepTaken, Begun};

use editions::Editions;
use lines::tally::Tally;
use lines::texts::put_header;
use lines::turns::{ROOM, Turn, take_turn};
use roll::{fresh_book, statement_room};
use std::io;
use std::io::Read;
use streams::flow::{Flow, INPUT, Next, OUTPUT, Run, go_on, make_room, read_more};
use streams::output::write;
use text::output::Output;

// A turn, and what it asks for: bytes read, or bytes to be written. What turns carry on, beside the book, is the tally.
fn take_step<F: Read>(
    rt: &impl Eprint,
    stdin: &mut F,
    file: &[u8],
    editions: Editions,
    book: &mut [u8],
    input: &mut [u8],
    out: &mut Output<OUTPUT>,
    statement: &mut [u8],
    run: Run<Tally>,
) -> Next<Tally>
    requires { Running file.now editions book.old input.old out.old run × StatementRoom statement.old }
    ensures { StepTaken file.now editions run book.old input.old out.old
        book.new input.new out.new result }
{
    let Run { flow, carried } = run;
    match take_turn(
        file,
        editions,
        book,
        &input[flow.from..flow.to],
        flow.more,
        statement,
        out,
        carried,
    ) {
        Turn::More => go_on(read_more(rt, stdin, input, flow), carried),
        Turn::On { used, tally } => {
            let on = Flow {
                from: flow.from + used,
                ..flow
            };
            go_on(make_room(ROOM, out.len(), on), tally)
        }
        Turn::Over => Next::Last,
    }
}

// Turn after turn, until the run is over. All that is written is written here, as each step tells it: this loop and `write` are trusted.
// (A twin of `print_statement`'s loop: a step of each has arguments of its own, and of a closure over them a proof would know nothing.)
fn settle_all<F: Read>(
    rt: &(impl Print + Eprint),
    stdin: &mut F,
    file: &[u8],
    editions: Editions,
    book: &mut [u8],
    input: &mut [u8],
    out: &mut Output<OUTPUT>,
    statement: &mut [u8],
    first: Run<Tally>,
) -> io::Result<()>
    requires { Begun file.now editions book.old input.old out.old first × StatementRoom statement.old }
{
    let mut run = first;
    loop {
        match take_step(rt, stdin, file, editions, book, input, out, statement, run) {
            Next::On(on) => {
                run = on;
            }
            Next::Write(on) => {
                out.hand_over(|text| write(rt, text))?;
                run = on;
            }
            Next::Last => {
                return write(rt, out.as_slice());
            }
        }
    }
}

// The roll from standard input, under a faultless file, from a fresh book.
pub fn settle_roll<F: Read>(
    rt: &(impl Print + Eprint),
    stdin: &mut F,
    file: &[u8],
    editions: Editions,
) -> io::Result<()>
    requires { ReadFile file.now editions }
{
    let mut book = fresh_book();
    let mut input = [0u8; INPUT];
    let mut out = Output::<OUTPUT>::new();
    let mut statement = statement_room();
    put_header(&mut out);
    let first = Run {
        flow: Flow {
            from: 0,
            to: 0,
            more: true,
        },
        carried: Tally {
            accepted: 0,
            refused: 0,
            cents: 0,
        },
    };
    settle_all(
        rt,
        stdin,
        file,
        editions,
        &mut book,
        &mut input,
        &mut out,
        &mut statement,
        first,
    )
}
