// A run: bytes come into a buffer, are used, and what is put goes out of an output.
ghost use Rattle.std.specs.Prelude.{◌≡◌, ◌≤◌};
ghost use Rattle.streams.specs.Flows.{output_size, Inside, MoreToRead, CameMore, Made, went_on};

use crate::input::{keep, read_next};
use std::io::Read;

// Room for the bytes that come: a record has 1,026 at most.
pub const INPUT: usize = 8_192;

// Room for what is put and not written yet.
pub const OUTPUT: usize = 8_192;

// How far the input has come: the bytes read and not used yet stand from `from` to `to` in it, and more may come or not.
#[derive(Clone, Copy)]
pub struct Flow {
    pub from: usize,
    pub to: usize,
    pub more: bool,
}

// What comes after bytes are read, or put. Nothing is written here: the loop does, as it is told.
#[derive(Clone, Copy)]
pub enum Flowed {
    // another turn
    On(Flow),
    // another turn, once the output is written and cleared
    Write(Flow),
    // nothing but the output: no more could be read, which was told on standard error
    Stopped,
}

// How far a run has come: its input, and what its turns carry on.
#[derive(Clone, Copy)]
pub struct Run<T> {
    pub flow: Flow,
    pub carried: T,
}

// What comes after a turn.
#[derive(Clone, Copy)]
pub enum Next<T> {
    // another one
    On(Run<T>),
    // another one, once the output is written and cleared
    Write(Run<T>),
    // nothing but the output: the run is over, or no more could be read, which was told on standard error
    Last,
}

// The bytes that are not used yet, and the next ones behind them. After a failed read no turn is taken: what was put so far is to be written.
pub fn read_more<F: Read>(rt: &impl Eprint, stdin: &mut F, input: &mut [u8], flow: Flow) -> Flowed
    requires { MoreToRead input.old flow }
    ensures { CameMore flow input.old input.new result }
{
    let kept = keep(input, flow.from, flow.to);
    match read_next(rt, stdin, input, kept) {
        Ok(got) => Flowed::On(Flow {
            from: 0,
            to: kept + got,
            more: 0 < got,
        }),
        Err(_) => Flowed::Stopped,
    }
}

// What has been put, so many bytes, is to be written as soon as a turn might not find its room.
pub fn make_room(room: usize, put: usize, flow: Flow) -> Flowed
    requires { Inside flow × ((room ≤ output_size) × (put ≤ output_size)) }
    ensures { Made room put flow result }
{
    if room <= OUTPUT - put {
        Flowed::On(flow)
    } else {
        Flowed::Write(flow)
    }
}

// Another turn, where there is one.
pub fn go_on<T: Copy>(flowed: Flowed, carried: T) -> Next<T>
    ensures { result ≡ went_on flowed carried }
{
    match flowed {
        Flowed::On(flow) => Next::On(Run { flow, carried }),
        Flowed::Write(flow) => Next::Write(Run { flow, carried }),
        Flowed::Stopped => Next::Last,
    }
}
