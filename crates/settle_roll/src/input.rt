// The tariff's first bytes.
ghost use Rattle.std.specs.Prelude.{◌≤◌, length};
ghost use Rattle.streams.specs.Pieces.{bytes_come};

use std::fs;
use std::io::ErrorKind;
use std::rt::Files;
use streams::failure::tell;
use streams::input::{Failed, fill_or_tell};

// The tariff's first bytes: all of them, or as many as there is room for. A missing file counts as empty.
pub fn load_tariff(rt: &(impl Files + Eprint), room: &mut [u8]) -> Result<usize, Failed>
    ensures { bytes_come result ≤ length room.old }
{
    let name = "tariff.bin";
    match fs::open(rt, name) {
        Ok(mut file) => fill_or_tell(rt, &mut file, name.as_bytes(), room),
        Err(error) if error.kind() == ErrorKind::NotFound => Ok(0),
        Err(error) => {
            tell(rt, name.as_bytes(), error);
            Err(Failed { bytes: 0, error })
        }
    }
}
