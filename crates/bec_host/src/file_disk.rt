ghost use Rattle.std.specs.Prelude.{◌≡◌, ◌<◌, ◌↔◌, IsTrue};
ghost use Rattle.bec_bytes.specs.Causes.{HasCause, faults_after};
ghost use Rattle.bec_host.specs.Untold.{untold_disk, untold_reads};

use bec_bytes::Counted;
use bec_disk::{Disk, DiskFault};
use std::fs::OpenFile;
use std::io;
use std::os::unix::fs::FileExt;

/// A disk over a file. It tells nothing of what the file holds.
///
/// A short read or write goes on, and one that a signal interrupted is made again. A sync makes data and length last
/// (`fsync`); where nothing was written or cut since the last one, it makes no call of the system. After one that
/// failed the system may have dropped what was not written, and call the next sync a success, so the disk fails each
/// later call.
#[derive(Drop)]
pub struct FileDisk<F: FileExt + OpenFile> {
    /// The open file.
    file: F,
    /// Its path, for messages.
    path: String,
    /// How many calls failed.
    faults: u64,
    /// Whether a sync failed.
    lost: bool,
    /// Whether something may have been written or cut since the last sync.
    changed: bool,
    /// The first error that the file gave.
    error: Option<io::Error>,
}

impl<F: FileExt + OpenFile> FileDisk<F> {
    /// A disk over an open file, whose path is for messages alone.
    pub fn new(file: F, path: String) -> FileDisk<F>
        ensures { result.faults ≡ 0 }
    {
        FileDisk {
            file,
            path,
            faults: 0,
            lost: false,
            changed: true,
            error: None,
        }
    }

    /// The path of the file.
    pub(crate) fn path(&self) -> &str {
        self.path.as_str()
    }

    /// The first error, where a call failed.
    pub(crate) fn error(&self) -> Option<&io::Error> {
        self.error.as_ref()
    }

    /// Whether a call failed.
    pub(crate) fn is_faulty(&self) -> bool
        ensures { IsTrue result ↔ (0 < self.now.faults) }
    {
        self.faults > 0
    }

    /// Counts a fault where `outcome` is one, or where the disk is lost.
    fn counted<T: Drop>(&mut self, outcome: io::Result<T>) -> Result<T, DiskFault>
        ensures cause { HasCause self.old.faults self.new.faults result }
        ensures count { self.new.faults ≡ faults_after result self.old.faults }
    {
        let error = match outcome {
            Ok(value) if !self.lost => return Ok(value),
            Ok(_) => io::Error::from(io::ErrorKind::Other),
            Err(error) => error,
        };
        self.faults = self.faults.saturating_add(1);
        if self.error.is_none() {
            self.error = Some(error);
        }
        Err(DiskFault)
    }
}

impl<F: FileExt + OpenFile> Counted for FileDisk<F> {
    ghost faults = { λ d. d.faults };
}

impl<F: FileExt + OpenFile> Disk for FileDisk<F> {
    ghost state = { λ _. untold_disk };

    ghost reads = { λ _ tells. untold_reads tells };

    fn len(&mut self) -> Result<u64, DiskFault> {
        let length = self.file.metadata().map(|metadata| metadata.len());
        self.counted(length)
    }

    fn read(&mut self, at: u64, buf: &mut [u8]) -> Result<(), DiskFault> {
        let read = self.file.read_exact_at(buf, at);
        self.counted(read)
    }

    fn write_at(&mut self, at: u64, bytes: &[u8]) -> Result<(), DiskFault> {
        self.changed |= !bytes.is_empty();
        let written = self.file.write_all_at(bytes, at);
        self.counted(written)
    }

    fn cut(&mut self, len: u64) -> Result<(), DiskFault> {
        self.changed = true;
        let cut = self.file.set_len(len);
        self.counted(cut)
    }

    fn sync(&mut self) -> Result<(), DiskFault> {
        if !self.changed {
            return self.counted(Ok(()));
        }
        let synced = self.file.sync_all();
        self.lost |= synced.is_err();
        self.changed = synced.is_err();
        self.counted(synced)
    }
}
