//! The files of parts, as disks have them.

use std::alloc::Global;
use std::cell::Cell;
use std::fs::{File, Metadata, OpenFile, OpenOptions, TryLockError};
use std::io;
use std::io::{ErrorKind, Write};
use std::os::unix::fs::FileExt;
use std::path::Path;
use std::rt::Files;

/// How many bytes are copied at a time.
const PIECE: u64 = 4_096;

/// The file of a part.
#[derive(Drop)]
pub enum PartFile<R: Files<File = File> + AllocGlobal + Drop, W: Write + Copy> {
    /// One that is written.
    Written(WrittenFile<R, W>),
    /// One that is only read.
    Shown(ShownFile<W>),
}

/// A file that is written. Of what stood in it when it was opened nothing is cut off before it is kept in the file
/// beside it whose name ends in `.cut`, and each cut of it is told.
#[derive(Drop)]
pub struct WrittenFile<R: Files<File = File> + AllocGlobal + Drop, W: Write + Copy> {
    /// The open file.
    file: File,
    /// Its path.
    path: String,
    /// The system's files.
    rt: R,
    /// Where cuts are told.
    explain: W,
    /// How many bytes at its front are kept where they are cut off.
    kept: Cell<u64>,
}

/// A file that is only read. A cut shortens what is shown of it, and leaves the file as it is.
#[derive(Drop)]
pub struct ShownFile<W: Write + Copy> {
    /// The open file.
    file: File,
    /// Its path.
    path: String,
    /// Where cuts are told.
    explain: W,
    /// How many bytes of it are shown.
    shown: Cell<u64>,
}

impl<R: Files<File = File> + AllocGlobal + Drop, W: Write + Copy> WrittenFile<R, W> {
    /// An open file, whose first `kept` bytes are kept where they are cut off.
    pub(crate) fn new(rt: R, file: File, path: String, explain: W, kept: u64) -> WrittenFile<R, W> {
        WrittenFile {
            file,
            path,
            rt,
            explain,
            kept: Cell::new(kept),
        }
    }

    /// Leaves the first `len` bytes.
    fn cut(&self, len: u64) -> io::Result<()> {
        let end = self.file.metadata()?.len().min(self.kept.get());
        if end <= len {
            return self.file.set_len(len);
        }
        if let Err(error) = self.keep(len, end) {
            self.tell_unkept(end - len, &error);
            return Err(error);
        }
        self.file.set_len(len)?;
        self.kept.set(len);
        self.tell_cut(end - len);
        Ok(())
    }

    /// Appends the bytes from `at` to `end` to the file of what was cut off.
    fn keep(&self, at: u64, end: u64) -> io::Result<()> {
        let path = cut_path(self.rt.alloc(), self.path.as_str())?;
        let mut how = OpenOptions::new();
        how.read(true).append(true).create(true);
        refuse_special(&self.rt, path.as_str())?;
        let mut cut = how.open(&self.rt, path.as_str())?;
        let before = cut.metadata()?.len();
        let kept = match copy(&self.file, &mut cut, at, end) {
            Ok(()) => cut.sync_all(),
            Err(error) => Err(error),
        };
        if kept.is_err() {
            let _ = cut.set_len(before);
            return kept;
        }
        sync_beside(&self.rt, path.as_str())
    }

    /// Tells that bytes were cut off.
    fn tell_cut(&self, count: u64) {
        let mut explain = self.explain;
        let path = self.path.as_str();
        let _ = writeln!(
            explain,
            "bec: the last {count} bytes of {path} were no whole and good records, and were cut off. They are kept"
        );
        let _ = writeln!(
            explain,
            "     in {path}.cut. Merge with a backup or another member's store: what they were comes back from"
        );
        let _ = writeln!(explain, "     there. docs/OPERATING.md says more.");
    }

    /// Tells that bytes should have been cut off, and were not.
    fn tell_unkept(&self, count: u64, error: &io::Error) {
        let mut explain = self.explain;
        let path = self.path.as_str();
        let _ = writeln!(
            explain,
            "bec: the last {count} bytes of {path} are no whole and good records. They were not cut off, since"
        );
        let _ = writeln!(
            explain,
            "     they could not be kept in {path}.cut: {error}"
        );
    }
}

impl<W: Write + Copy> ShownFile<W> {
    /// An open file, of which `shown` bytes are shown.
    pub(crate) fn new(file: File, path: String, explain: W, shown: u64) -> ShownFile<W> {
        ShownFile {
            file,
            path,
            explain,
            shown: Cell::new(shown),
        }
    }

    /// Shows the first `len` bytes alone. What is behind them is told, unless another program has the file, which may be
    /// writing just there.
    fn cut(&self, len: u64) {
        let lost = self.shown.get().saturating_sub(len);
        self.shown.set(len);
        if lost == 0 || is_in_use(&self.file) {
            return;
        }
        let mut explain = self.explain;
        let path = self.path.as_str();
        let _ = writeln!(
            explain,
            "bec: the last {lost} bytes of {path} are no whole and good records, and are passed over. A command that"
        );
        let _ = writeln!(
            explain,
            "     writes there cuts them off, and keeps them in {path}.cut. Merge with a backup or another member's"
        );
        let _ = writeln!(
            explain,
            "     store: what they were comes back from there. docs/OPERATING.md says more."
        );
    }
}

impl<R: Files<File = File> + AllocGlobal + Drop, W: Write + Copy> FileExt for PartFile<R, W> {
    fn read_at(&self, buf: &mut [u8], offset: u64) -> io::Result<usize> {
        match self {
            PartFile::Written(part) => part.file.read_at(buf, offset),
            PartFile::Shown(part) => part.file.read_at(buf, offset),
        }
    }

    fn write_at(&self, buf: &[u8], offset: u64) -> io::Result<usize> {
        match self {
            PartFile::Written(part) => part.file.write_at(buf, offset),
            PartFile::Shown(_) => Err(io::Error::new(
                ErrorKind::PermissionDenied,
                "it was opened for reading alone",
            )),
        }
    }
}

impl<R: Files<File = File> + AllocGlobal + Drop, W: Write + Copy> OpenFile for PartFile<R, W> {
    fn metadata(&self) -> io::Result<Metadata> {
        match self {
            PartFile::Written(part) => part.file.metadata(),
            PartFile::Shown(part) => Ok(Metadata::of_file(part.shown.get())),
        }
    }

    fn set_len(&self, size: u64) -> io::Result<()> {
        match self {
            PartFile::Written(part) => part.cut(size),
            PartFile::Shown(part) => {
                part.cut(size);
                Ok(())
            }
        }
    }

    fn sync_all(&self) -> io::Result<()> {
        match self {
            PartFile::Written(part) => part.file.sync_all(),
            PartFile::Shown(_) => Ok(()),
        }
    }

    fn sync_data(&self) -> io::Result<()> {
        self.sync_all()
    }
}

/// Whether another program has a file locked.
fn is_in_use(file: &File) -> bool {
    match file.try_lock_shared() {
        Ok(()) => file.unlock().is_err(),
        Err(error) => matches!(error, TryLockError::WouldBlock),
    }
}

/// The path of the file of what was cut off from the file at a path.
fn cut_path(alloc: Global, path: &str) -> io::Result<String> {
    Ok(format!(in alloc; "{path}.cut")?)
}

/// Refuses a path at which something stands that is no regular file: whoever opens a pipe waits for another one to.
pub(crate) fn refuse_special<R: Files<File = File>>(rt: &R, path: &str) -> io::Result<()> {
    match std::fs::metadata(rt, path) {
        Ok(named) if named.is_file() => Ok(()),
        Ok(_) => Err(io::Error::new(ErrorKind::InvalidInput, "it is no regular file")),
        Err(error) if error.kind() == ErrorKind::NotFound => Ok(()),
        Err(error) => Err(error),
    }
}

/// Appends the bytes of a file from `at` to `end` to another one.
fn copy(from: &File, to: &mut File, at: u64, end: u64) -> io::Result<()> {
    let mut piece = [0; 4_096];
    let count = end.saturating_sub(at).div_ceil(PIECE);
    for number in 0..count {
        let start = at.saturating_add(number.saturating_mul(PIECE));
        let size = end.saturating_sub(start).min(PIECE) as usize;
        from.read_exact_at(&mut piece[..size], start)?;
        to.write_all(&piece[..size])?;
    }
    Ok(())
}

/// Makes the name of the file at a path last.
fn sync_beside<R: Files<File = File>>(rt: &R, path: &str) -> io::Result<()> {
    let above = Path::new(path).parent().and_then(|above| above.to_str());
    let name = match above {
        Some("") | None => ".",
        Some(above) => above,
    };
    File::open(rt, name)?.sync_all()
}
