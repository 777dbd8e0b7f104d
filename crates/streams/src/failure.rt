// What is told of a read or a write that failed.
use std::io::Error;

// What is left of a failure that was told.
#[derive(Clone, Copy)]
pub struct Told;

// A line on standard error: what failed, and why. Where no line can be written there either, nothing is told.
// It is called seldom, and its text takes stack: so it stands in no other function's frame.
#[cold]
#[inline(never)]
pub fn tell(rt: &impl Eprint, what: &[u8], error: Error) -> Told {
    let what = match str::from_utf8(what) {
        Ok(text) => text,
        Err(_) => "a file",
    };
    let _ = eprintln!(rt; "{what}: {error}");
    Told
}
