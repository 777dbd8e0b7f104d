// The roll's bytes, in the pieces in which they come.
ghost use Rattle.streams.specs.Pieces.{Filled, bytes_come};

use std::io::Read;
use streams::input::{Failed, fill_or_tell};

// Standard input's first bytes, piece behind piece: all of them, or as many as there is room for.
pub fn read_roll<F: Read>(rt: &impl Eprint, stdin: &mut F, room: &mut [u8]) -> Result<usize, Failed>
    ensures { Filled room.new (bytes_come result) }
{
    fill_or_tell(rt, stdin, b"standard input", room)
}
