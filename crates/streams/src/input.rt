// Bytes of a file, read behind those that are there already.
ghost use Rattle.std.specs.Prelude.{◌≤◌, ◌<◌, length};
ghost use Rattle.streams.specs.Clauses.{Came, Kept, bytes_read};
ghost use Rattle.streams.specs.Pieces.{Filled, bytes_come};

use crate::failure::{Told, tell};
use std::io;
use std::io::{Error, Read};

// A file that could not be read to its end: why, and how many bytes had come before.
#[derive(Clone, Copy)]
pub struct Failed {
    pub bytes: usize,
    pub error: Error,
}

// One read of a file into the room from a place on; no byte is the file's end, where there is room.
pub fn read_at<F: Read>(file: &mut F, room: &mut [u8], place: usize) -> io::Result<usize>
    requires { place ≤ length room.old }
    ensures { Came room.old place room.new (bytes_read result) }
{
    file.read(&mut room[place..])
}

// Standard input's next bytes, behind those that are there already. A failure is told.
pub fn read_next<F: Read>(
    rt: &impl Eprint,
    stdin: &mut F,
    room: &mut [u8],
    place: usize,
) -> Result<usize, Told>
    requires { place < length room.old }
    ensures { Came room.old place room.new (bytes_read result) }
{
    match read_at(stdin, room, place) {
        Ok(bytes) => Ok(bytes),
        Err(error) => Err(tell(rt, b"standard input", error)),
    }
}

// A file's first bytes, piece behind piece: all of them, or as many as there is room for. Each read says how far the place moves.
pub fn fill_from<F: Read>(file: &mut F, room: &mut [u8]) -> Result<usize, Failed>
    ensures { Filled room.new (bytes_come result) }
{
    let mut bytes = 0;
    while bytes < room.len() {
        match read_at(file, room, bytes) {
            Ok(0) => break,
            Ok(more) => bytes += more,
            Err(error) => return Err(Failed { bytes, error }),
        }
    }
    Ok(bytes)
}

// The same; a failure is told.
pub fn fill_or_tell<F: Read>(
    rt: &impl Eprint,
    file: &mut F,
    name: &[u8],
    room: &mut [u8],
) -> Result<usize, Failed>
    ensures { Filled room.new (bytes_come result) }
{
    let filled = fill_from(file, room);
    if let Err(failed) = filled {
        tell(rt, name, failed.error);
    }
    filled
}

// Moves the bytes from `from` to `to` to the start of the room. The answer is how many they are.
pub fn keep(room: &mut [u8], from: usize, to: usize) -> usize
    requires { (from ≤ to) × (to ≤ length room.old) }
    ensures { Kept room.old from to room.new result }
{
    room.copy_within(from..to, 0);
    to - from
}
