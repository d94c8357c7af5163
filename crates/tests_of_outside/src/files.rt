ghost use Rattle.std.specs.Prelude.{◌≤◌, IfOk};

use bec_disk::{Disk, DiskFault, Part, Shelf};
use bec_host::{Access, FileDisk, FileShelf};
use std::cell::Cell;
use std::fs::{Metadata, OpenFile};
use std::io::{ErrorKind, Write};
use std::os::unix::fs::{FileExt, MetadataExt};
use std::test::Fail;
use std::{fs, io};

const FOLDER: &str = "/tmp/bec_tests_of_host";

const STORE: &str = "/tmp/bec_tests_of_host/clubs/club";

/// A reader of explanations who wants none.
#[derive(Clone, Copy)]
struct Nobody;

impl Write for Nobody {
    fn write(&mut self, buf: &[u8]) -> io::Result<usize> {
        Ok(buf.len())
    }

    fn flush(&mut self) -> io::Result<()> {
        Ok(())
    }
}

#[test]
fn a_part_lasts_and_is_locked(rt: HostRuntime) -> Result<(), Fail> {
    let _ = fs::remove_dir_all(&rt, FOLDER);
    let mut shelf = FileShelf::new(rt.clone()?, Access::Writing { wait: 0 }, Nobody);
    assert!(rt; shelf.find(STORE, Part::Schema)?.is_none());
    let mut disk = shelf.make(STORE, Part::Schema)?;
    disk.write_at(0, b"some bytes")?;
    disk.write_at(4, b"-")?;
    disk.cut(6)?;
    disk.sync()?;
    assert!(rt;
        shelf.find(STORE, Part::Schema).is_err() && shelf.make(STORE, Part::Schema).is_err()
    );
    shelf.put_back(disk);
    let mut disk = shelf.find(STORE, Part::Schema)?.expect(&rt, "the part");
    let mut bytes = [0u8; 6];
    disk.read(0, &mut bytes)?;
    assert!(rt; disk.len()? == 6 && &bytes == b"some-b" && disk.read(1, &mut bytes).is_err());
    shelf.put_back(disk);
    let key = shelf.make(STORE, Part::Key)?;
    shelf.put_back(key);
    assert_eq!(rt;
        fs::metadata(&rt, "/tmp/bec_tests_of_host/clubs/club/key")?.mode() & 0o777,
        0o600
    );
    fs::remove_dir_all(&rt, FOLDER)?;
    Ok(())
}

const TORN: &str = "/tmp/bec_tests_of_torn";

#[test]
fn what_is_cut_off_is_kept_first(rt: HostRuntime) -> Result<(), Fail> {
    let _ = fs::remove_dir_all(&rt, TORN);
    let mut shelf = FileShelf::new(rt.clone()?, Access::Writing { wait: 0 }, Nobody);
    let mut disk = shelf.make(TORN, Part::Updates)?;
    disk.write_at(0, b"good records, a torn end")?;
    disk.cut(23)?;
    shelf.put_back(disk);
    // What this shelf wrote itself is not kept, and what it found is.
    assert!(rt; fs::metadata(&rt, "/tmp/bec_tests_of_torn/updates.cut").is_err());
    let mut disk = shelf.find(TORN, Part::Updates)?.expect(&rt, "the part");
    disk.cut(18)?;
    assert_eq!(rt;
        fs::metadata(&rt, "/tmp/bec_tests_of_torn/updates.cut")?.len(),
        5
    );
    shelf.put_back(disk);
    // Where it cannot be kept nothing is cut off.
    fs::remove_file(&rt, "/tmp/bec_tests_of_torn/updates.cut")?;
    fs::create_dir(&rt, "/tmp/bec_tests_of_torn/updates.cut")?;
    let mut disk = shelf.find(TORN, Part::Updates)?.expect(&rt, "the part");
    assert!(rt; disk.cut(12).is_err() && disk.len()? == 18);
    fs::remove_dir_all(&rt, TORN)?;
    Ok(())
}

const READ: &str = "/tmp/bec_tests_of_read";

#[test]
fn reading_alone_locks_and_changes_nothing(rt: HostRuntime) -> Result<(), Fail> {
    let _ = fs::remove_dir_all(&rt, READ);
    let mut writing = FileShelf::new(rt.clone()?, Access::Writing { wait: 0 }, Nobody);
    let mut reading = FileShelf::new(rt.clone()?, Access::Reading, Nobody);
    assert!(rt; reading.find(READ, Part::Updates)?.is_none());
    assert!(rt; reading.make(READ, Part::Updates).is_err());
    let mut written = writing.make(READ, Part::Updates)?;
    written.write_at(0, b"good records, a torn end")?;
    let mut shown = reading.find(READ, Part::Updates)?.expect(&rt, "the part");
    shown.cut(12)?;
    assert!(rt; shown.len()? == 12 && written.len()? == 24);
    assert!(rt; shown.write_at(12, b"!").is_err());
    fs::remove_dir_all(&rt, READ)?;
    Ok(())
}

/// A file that moves one byte a call, is interrupted at each second one, and whose first sync fails.
#[derive(Drop)]
struct SlowFile {
    calls: Cell<u32>,
    syncs: Cell<u32>,
}

impl SlowFile {
    fn moves(&self, most: usize) -> io::Result<usize>
        ensures { IfOk result (λ n. n ≤ most) }
    {
        let calls = self.calls.get().wrapping_add(1);
        self.calls.set(calls);
        if calls % 2 == 0 {
            return Err(io::Error::from(ErrorKind::Interrupted));
        }
        Ok(most.min(1))
    }
}

impl FileExt for SlowFile {
    fn read_at(&self, buf: &mut [u8], offset: u64) -> io::Result<usize> {
        let count = self.moves(buf.len())?;
        for byte in buf[..count].iter_mut() {
            *byte = (offset % 256) as u8;
        }
        Ok(count)
    }

    fn write_at(&self, buf: &[u8], _offset: u64) -> io::Result<usize> {
        self.moves(buf.len())
    }
}

impl OpenFile for SlowFile {
    fn metadata(&self) -> io::Result<Metadata> {
        Ok(Metadata::of_file(9))
    }

    fn set_len(&self, _size: u64) -> io::Result<()> {
        Ok(())
    }

    fn sync_all(&self) -> io::Result<()> {
        self.syncs.set(self.syncs.get().wrapping_add(1));
        if self.syncs.get() == 1 {
            return Err(io::Error::from(ErrorKind::Other));
        }
        Ok(())
    }

    fn sync_data(&self) -> io::Result<()> {
        self.sync_all()
    }
}

#[test]
fn short_calls_go_on_and_a_failed_sync_ends_a_disk(rt: HostRuntime) -> Result<(), Fail> {
    let file = SlowFile {
        calls: Cell::new(0),
        syncs: Cell::new(0),
    };
    let mut disk = FileDisk::new(file, String::new(rt.alloc()));
    let mut bytes = [0u8; 4];
    disk.read(3, &mut bytes)?;
    assert_eq!(rt; bytes, [3, 4, 5, 6]);
    disk.write_at(9, b"more")?;
    assert_eq!(rt; disk.len()?, 9);
    assert_eq!(rt; disk.sync(), Err(DiskFault));
    assert_eq!(rt; disk.sync(), Err(DiskFault));
    Ok(())
}

#[test]
fn a_sync_behind_which_nothing_was_written_makes_no_call(rt: HostRuntime) -> Result<(), Fail> {
    // The second sync of this file fails.
    let file = SlowFile {
        calls: Cell::new(0),
        syncs: Cell::new(u32::MAX),
    };
    let mut disk = FileDisk::new(file, String::new(rt.alloc()));
    disk.sync()?;
    disk.write_at(9, b"")?;
    disk.sync()?;
    disk.cut(3)?;
    assert_eq!(rt; disk.sync(), Err(DiskFault));
    Ok(())
}
