use std::fs::{File, OpenOptions};
use std::io;
use std::os::fd::{AsRawFd, RawFd};
use std::rt::Files;

/// Stands in for each standard stream that the program was started without, for as long as the answer is kept.
///
/// A file that is opened gets the least descriptor that is free. So where standard input, output or error is closed, a
/// part of a store would get its place, and what is meant for the stream would be read from the part or written over
/// it. The null device takes that place first. It refuses to be read as standard input, and to be written as one of the
/// others, as a closed stream does. A program calls this before anything else. An error comes where the null device
/// cannot be opened.
pub fn hold_closed_streams<R: Files<File = File>>(rt: &R) -> io::Result<[Option<File>; 3]> {
    let mut written = OpenOptions::new();
    written.write(true);
    let mut read = OpenOptions::new();
    read.read(true);
    let input = hold(rt, &written, 0)?;
    let output = hold(rt, &read, 1)?;
    let errors = hold(rt, &read, 2)?;
    Ok([input, output, errors])
}

/// Opens the null device, and keeps it where it got this descriptor.
fn hold<R: Files<File = File>>(
    rt: &R,
    how: &OpenOptions,
    descriptor: RawFd,
) -> io::Result<Option<File>> {
    let null = how.open(rt, "/dev/null")?;
    if null.as_raw_fd() == descriptor {
        Ok(Some(null))
    } else {
        Ok(None)
    }
}
