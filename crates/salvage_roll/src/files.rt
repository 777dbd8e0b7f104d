// kept.bin: one that is there is always this roll's, whole. It is made under another name, and gets its own once its bytes are on the disk.
use std::fs::OpenFile;
use std::io::{ErrorKind, Write};
use std::rt::Files;
use std::{fs, io};
use streams::failure::{Told, tell};

// Removes a file of an earlier run, where there is one.
fn remove(rt: &(impl Files + Eprint), name: &str) -> Result<(), Told> {
    match fs::remove_file(rt, name) {
        Err(error) if error.kind() != ErrorKind::NotFound => Err(tell(rt, name.as_bytes(), error)),
        _ => Ok(()),
    }
}

// Removes what earlier runs have left. Where that fails it is told, and nothing else is done.
pub fn remove_earlier(rt: &(impl Files + Eprint)) -> Result<(), Told> {
    remove(rt, "kept.bin")?;
    remove(rt, "kept.bin.new")
}

// Removes what a failed run has made.
fn discard(rt: &impl Files) {
    let _ = fs::remove_file(rt, "kept.bin.new");
    let _ = fs::remove_file(rt, "kept.bin");
}

// Makes a file of all bytes, and waits until they are on the disk.
fn fill(rt: &impl Files, name: &str, kept: &[u8]) -> io::Result<()> {
    let mut file = fs::create(rt, name)?;
    file.write_all(kept)?;
    file.sync_all()
}

// Makes the file under its other name.
fn make(rt: &(impl Files + Eprint), kept: &[u8]) -> Result<(), Told> {
    let name = "kept.bin.new";
    fill(rt, name, kept).map_err(|error| tell(rt, name.as_bytes(), error))
}

// Gives the file its own name.
fn give_name(rt: &(impl Files + Eprint)) -> Result<(), Told> {
    fs::rename(rt, "kept.bin.new", "kept.bin").map_err(|error| tell(rt, b"kept.bin", error))
}

// Makes kept.bin. Where that fails it is told, and no file is left.
pub fn save(rt: &(impl Files + Eprint), kept: &[u8]) -> Result<(), Told> {
    let saved = make(rt, kept).and_then(|()| give_name(rt));
    if saved.is_err() {
        discard(rt);
    }
    saved
}
