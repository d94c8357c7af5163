//! The file of a key, as it is found and made.

use crate::waiting::Waiting;
use std::fs::{File, OpenOptions};
use std::io::{ErrorKind, Write};
use std::os::unix::fs::{FileExt, MetadataExt};
use std::rt::Files;
use std::time::Clock;
use std::{fs, io};

/// How many bytes stand before the payload of a part behind a gate.
const GATE_LEN: u64 = 5;

/// Whether a file has a part behind its gate, as `bec_disk` reads it.
pub(crate) fn has_key(file: &File) -> io::Result<bool> {
    if file.metadata()?.len() < GATE_LEN {
        return Ok(false);
    }
    let mut gate = [0];
    file.read_exact_at(&mut gate, 0)?;
    Ok(gate[0] != 0)
}

/// Whether others than its owner may read a file or write to it. Where that is not told, they may not.
pub(crate) fn is_for_others(file: &File) -> bool {
    match file.metadata() {
        Ok(metadata) => metadata.mode() & 0o077 != 0,
        Err(_) => false,
    }
}

/// Whether a path names this file, and not by a link.
pub(crate) fn stands_at<R: Files<File = File>>(
    rt: &R,
    file: &File,
    path: &str,
) -> io::Result<bool> {
    let named = fs::symlink_metadata(rt, path)?;
    let open = file.metadata()?;
    Ok(named.ino() == open.ino() && named.dev() == open.dev())
}

/// Takes away the file at a path where a key is to be made: `keygen` leaves one that has no key where it is
/// interrupted, and a seed is written only into a file that was made for it. A link, a file that has a key, and one
/// that another process has are left alone, and are an error.
///
/// Whoever takes a file away holds its lock, and looks then whether the path still names it. So of two processes at one
/// path at most one goes on to have the file that stands there.
pub(crate) fn make_way<R: Files<File = File> + Clock, W: Write + Copy>(
    rt: &R,
    waiting: &Waiting<'_, W>,
    path: &str,
) -> io::Result<()> {
    match fs::symlink_metadata(rt, path) {
        Ok(named) if named.is_file() => {}
        Ok(_) => return Err(io::Error::new(
            ErrorKind::InvalidInput,
            "a key is made in a file of its own",
        )),
        Err(error) if error.kind() == ErrorKind::NotFound => return Ok(()),
        Err(error) => return Err(error),
    }
    let mut how = OpenOptions::new();
    how.read(true).write(true);
    let file = waiting.open(rt, &how, path)?;
    if has_key(&file)? || !stands_at(rt, &file, path)? {
        return Err(io::Error::from(ErrorKind::WouldBlock));
    }
    fs::remove_file(rt, path)
}
