// The only door out.
use crate::failure::tell;
use std::io;
use std::io::ErrorKind;
use std::process::ExitCode;

// The status that is left of a program which the system ends where it writes and nobody reads any more: 128 and the number of that signal.
const CLOSED: u8 = 141;

// Writes some bytes. A failure is told on standard error; that nobody reads any more is not, since it is no failure of the
// program's. Then some of the bytes may have been written, and the error is the system's: it is handed on, so that the program ends.
pub fn write(rt: &(impl Print + Eprint), out: &[u8]) -> io::Result<()> {
    let written = rt.write_all(out);
    if let Err(error) = written {
        if error.kind() != ErrorKind::BrokenPipe {
            tell(rt, b"standard output", error);
        }
    }
    written
}

// How a program ends after it wrote: a failure that was told ends it like a run that went through.
pub fn status_after(written: io::Result<()>) -> ExitCode {
    match written {
        Err(error) if error.kind() == ErrorKind::BrokenPipe => ExitCode::from(CLOSED),
        _ => ExitCode::SUCCESS,
    }
}
