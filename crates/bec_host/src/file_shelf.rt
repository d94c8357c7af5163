ghost use Rattle.std.specs.Prelude.{◌≡◌, ◌≤◌, IfOk, IfSome};
ghost use Rattle.bec_bytes.specs.Causes.{Rose};
ghost use Rattle.bec_host.specs.Untold.{untold_shelf};

use crate::access::Access;
use crate::file_disk::FileDisk;
use crate::key_file::{has_key, is_for_others, make_way, stands_at};
use crate::part_file::{PartFile, ShownFile, WrittenFile, refuse_special};
use crate::waiting::Waiting;
use bec_bytes::Counted;
use bec_disk::{DiskFault, Part, Shelf};
use std::alloc::{AllocError, Global};
use std::fs::{File, OpenOptions};
use std::io::{ErrorKind, Write};
use std::os::unix::fs::OpenOptionsExt;
use std::path::Path;
use std::rt::Files;
use std::time::Clock;
use std::{fs, io};

/// A shelf over directories. A part is a file of its directory, locked while it is handed out (`flock`), so that two
/// programs never write one part at once: the second one waits, and where it has waited long enough its `find` fails.
/// The system gives the lock up when a process ends. For reading alone nothing is locked, made or written.
///
/// What an opening cuts off the updates of a store is kept first in the file `updates.cut` beside them, and told. Where
/// that cannot be, nothing is cut off, and the cut fails. For reading alone it is told, and passed over.
///
/// Only a file that is not there is an absent part, and one that is there for a key and has none yet; whatever else
/// keeps it from being opened is a fault. Each fault is told in a sentence to `explain`, as a rule standard error,
/// whose own errors are passed over. So is a key that others may read.
#[derive(Drop)]
pub struct FileShelf<R: Files<File = File> + AllocGlobal + Clock + Clone, W: Write + Copy> {
    /// The system's files.
    rt: R,
    /// Where faults are explained.
    explain: W,
    /// How parts are opened.
    access: Access,
    /// How many calls failed, and how many disks came back that had failed.
    faults: u64,
}

impl<R: Files<File = File> + AllocGlobal + Clock + Clone, W: Write + Copy> FileShelf<R, W> {
    /// A shelf over the directories of the system.
    pub fn new(rt: R, access: Access, explain: W) -> FileShelf<R, W>
        ensures { result.faults ≡ 0 }
    {
        FileShelf {
            rt,
            explain,
            access,
            faults: 0,
        }
    }

    /// Counts a fault of the file at a path, and explains it.
    fn fault(&mut self, path: &str, error: &io::Error) -> DiskFault
        ensures later { self.old.faults ≤ self.new.faults }
        ensures rose { Rose self.old.faults self.new.faults }
    {
        let _ = match error.kind() {
            ErrorKind::WouldBlock => {
                writeln!(self.explain, "bec: {path}: another program is using it")
            }
            _ => writeln!(self.explain, "bec: {path}: {error}"),
        };
        self.faults = self.faults.saturating_add(1);
        DiskFault
    }

    /// Opens a part where it exists, and tells of a key that others may read.
    fn open(
        &self,
        dir: &str,
        part: Part,
        path: &str,
    ) -> io::Result<Option<FileDisk<PartFile<R, W>>>>
        ensures { IfOk result (λ found. IfSome found (λ disk. disk.faults ≡ 0)) }
    {
        refuse_special(&self.rt, path)?;
        let found = match self.access {
            Access::Reading => open_shown(&self.rt, part, path)?,
            Access::Writing { wait } => open_part(&self.rt, &self.waiting(dir, wait), part, path)?,
        };
        let Some(file) = found else {
            return Ok(None);
        };
        if part == Part::Key && is_for_others(&file) {
            let mut explain = self.explain;
            let _ = writeln!(explain, "bec: {path}: others may read this key");
        }
        let disk = self.disk(file, part, path)?;
        Ok(Some(disk))
    }

    /// Makes a part that does not exist. For reading alone that is an error.
    fn make_new(&self, dir: &str, part: Part, path: &str) -> io::Result<FileDisk<PartFile<R, W>>>
        ensures { IfOk result (λ disk. disk.faults ≡ 0) }
    {
        let wait = match self.access {
            Access::Reading => return Err(io::Error::from(ErrorKind::PermissionDenied)),
            Access::Writing { wait } => wait,
        };
        let file = make_part(&self.rt, &self.waiting(dir, wait), part, path)?;
        self.disk(file, part, path)
    }

    /// The disk of an open part.
    fn disk(&self, file: File, part: Part, path: &str) -> io::Result<FileDisk<PartFile<R, W>>>
        ensures { IfOk result (λ disk. disk.faults ≡ 0) }
    {
        let len = file.metadata()?.len();
        let alloc = self.rt.alloc();
        let (told, named) = (path.to_string(alloc)?, path.to_string(alloc)?);
        let file = match self.access {
            Access::Reading => PartFile::Shown(ShownFile::new(file, told, self.explain, len)),
            Access::Writing { .. } => {
                let kept = if part == Part::Updates { len } else { 0 };
                PartFile::Written(WrittenFile::new(
                    self.rt.clone()?,
                    file,
                    told,
                    self.explain,
                    kept,
                ))
            }
        };
        Ok(FileDisk::new(file, named))
    }

    /// How long is waited for other programs.
    fn waiting<'a>(&self, dir: &'a str, seconds: u32) -> Waiting<'a, W> {
        Waiting {
            dir,
            seconds,
            explain: self.explain,
        }
    }
}

/// The name of a part's file.
fn file_name(part: Part) -> &'static str {
    match part {
        Part::Schema => "schema",
        Part::Updates => "updates",
        Part::Key => "key",
        Part::Used => "used",
        Part::Peers => "peers",
    }
}

/// The path of a part's file. The empty directory is the current one.
fn path_of(alloc: Global, dir: &str, part: Part) -> Result<String, AllocError> {
    let name = file_name(part);
    if dir.is_empty() {
        return name.to_string(alloc);
    }
    format!(in alloc; "{dir}/{name}")
}

/// Opens a part where it exists. What an earlier process wrote and did not sync is synced; so is the name of a file in
/// which nothing stands, since the process that made it may have stopped before. A file of a key that has none yet is
/// no part.
fn open_part<R: Files<File = File> + Clock, W: Write + Copy>(
    rt: &R,
    waiting: &Waiting<'_, W>,
    part: Part,
    path: &str,
) -> io::Result<Option<File>> {
    let mut how = OpenOptions::new();
    how.read(true).write(true);
    let file = match waiting.open(rt, &how, path) {
        Ok(file) => file,
        Err(error) if error.kind() == ErrorKind::NotFound => return Ok(None),
        Err(error) => return Err(error),
    };
    if part == Part::Key && !has_key(&file)? {
        return Ok(None);
    }
    file.sync_all()?;
    if file.metadata()?.len() == 0 {
        sync_names(rt, waiting.dir)?;
    }
    Ok(Some(file))
}

/// Opens a part for reading alone, where it exists.
fn open_shown<R: Files<File = File>>(rt: &R, part: Part, path: &str) -> io::Result<Option<File>> {
    let file = match File::open(rt, path) {
        Ok(file) => file,
        Err(error) if error.kind() == ErrorKind::NotFound => return Ok(None),
        Err(error) => return Err(error),
    };
    if part == Part::Key && !has_key(&file)? {
        return Ok(None);
    }
    Ok(Some(file))
}

/// Makes an empty part, and its directory where there is none. The file and its name are synced, so that the part
/// exists after a crash.
fn make_part<R: Files<File = File> + AllocGlobal + Clock, W: Write + Copy>(
    rt: &R,
    waiting: &Waiting<'_, W>,
    part: Part,
    path: &str,
) -> io::Result<File> {
    make_directories(rt, waiting.dir)?;
    let file = match part {
        Part::Key => make_key(rt, waiting, path)?,
        _ => waiting.open(rt, &for_new(), path)?,
    };
    file.sync_all()?;
    sync_names(rt, waiting.dir)?;
    Ok(file)
}

/// Makes the empty file of a key, for its owner alone, in place of one that has no key.
fn make_key<R: Files<File = File> + Clock, W: Write + Copy>(
    rt: &R,
    waiting: &Waiting<'_, W>,
    path: &str,
) -> io::Result<File> {
    make_way(rt, waiting, path)?;
    let mut how = for_new();
    how.mode(0o600);
    let file = waiting.open(rt, &how, path)?;
    if !stands_at(rt, &file, path)? {
        return Err(io::Error::from(ErrorKind::WouldBlock));
    }
    Ok(file)
}

/// How a file is made that is not there.
fn for_new() -> OpenOptions {
    let mut how = OpenOptions::new();
    how.read(true).write(true).create_new(true);
    how
}

/// Makes a directory and those above it, where there are none.
fn make_directories<R: Files<File = File> + AllocGlobal>(rt: &R, dir: &str) -> io::Result<()> {
    let mut path = String::new(rt.alloc());
    for (place, name) in dir.split('/').enumerate() {
        if place > 0 {
            path.push('/')?;
        }
        path.push_str(name)?;
        if !name.is_empty() {
            make_directory(rt, path.as_str())?;
        }
    }
    Ok(())
}

/// Makes a directory where there is none, and syncs its name. That of one that was there is synced where the one above
/// it can be read: an earlier process may have made it and stopped.
fn make_directory<R: Files<File = File>>(rt: &R, path: &str) -> io::Result<()> {
    let above = match Path::new(path).parent().and_then(|above| above.to_str()) {
        None => return Ok(()),
        Some(above) => above,
    };
    match fs::create_dir(rt, path) {
        Ok(()) => sync_names(rt, above),
        Err(error) if error.kind() == ErrorKind::AlreadyExists => {
            let _ = sync_names(rt, above);
            Ok(())
        }
        Err(error) => Err(error),
    }
}

/// Makes the names in a directory last. The empty name is the current directory's.
fn sync_names<R: Files<File = File>>(rt: &R, dir: &str) -> io::Result<()> {
    let name = if dir.is_empty() { "." } else { dir };
    File::open(rt, name)?.sync_all()
}

impl<R: Files<File = File> + AllocGlobal + Clock + Clone, W: Write + Copy> Counted
    for FileShelf<R, W> {
    ghost faults = { λ s. s.faults };
}

impl<R: Files<File = File> + AllocGlobal + Clock + Clone, W: Write + Copy> Shelf
    for FileShelf<R, W> {
    type D = FileDisk<PartFile<R, W>>;

    ghost state = { λ _. untold_shelf };

    fn find(
        &mut self,
        dir: &str,
        part: Part,
    ) -> Result<Option<FileDisk<PartFile<R, W>>>, DiskFault> {
        let Ok(path) = path_of(self.rt.alloc(), dir, part) else {
            return Err(self.fault(dir, &io::Error::from(ErrorKind::OutOfMemory)));
        };
        match self.open(dir, part, path.as_str()) {
            Ok(found) => Ok(found),
            Err(error) => Err(self.fault(path.as_str(), &error)),
        }
    }

    fn make(&mut self, dir: &str, part: Part) -> Result<FileDisk<PartFile<R, W>>, DiskFault> {
        let Ok(path) = path_of(self.rt.alloc(), dir, part) else {
            return Err(self.fault(dir, &io::Error::from(ErrorKind::OutOfMemory)));
        };
        match self.make_new(dir, part, path.as_str()) {
            Ok(disk) => Ok(disk),
            Err(error) => Err(self.fault(path.as_str(), &error)),
        }
    }

    fn put_back(&mut self, disk: FileDisk<PartFile<R, W>>) {
        if !disk.is_faulty() {
            return;
        }
        match disk.error() {
            Some(error) => {
                self.fault(disk.path(), error);
            }
            None => self.faults = self.faults.saturating_add(1),
        }
    }
}
