//! Which calls on disks fail during one command.

use bec_disk::Part;
use std::sync::atomic::{AtomicU64, Ordering};

/// Where in the world: a directory, and a part of it, or all of them.
#[derive(Drop)]
pub struct Spot {
    /// The directory.
    pub dir: String,
    /// The part, or `None` for all.
    pub part: Option<Part>,
}

impl Spot {
    /// Whether a part of a directory is there.
    pub fn has(&self, dir: &str, part: Part) -> bool {
        self.dir.as_str() == dir && (self.part.is_none() || self.part == Some(part))
    }
}

/// That calls on disks fail.
#[derive(Drop)]
pub struct Planned {
    /// On which disks.
    pub spot: Spot,
    /// Which of the calls on them, counted together from 1.
    pub call: u64,
    /// Whether all later calls fail too, and which image a crash then leaves.
    pub crash: Option<u64>,
}

/// What is planned for one command, and how many calls there were.
#[derive(Drop)]
pub struct Trouble {
    planned: Option<Planned>,
    calls: AtomicU64,
}

impl Trouble {
    /// Before the first call.
    pub fn new(planned: Option<Planned>) -> Trouble {
        Trouble {
            planned,
            calls: AtomicU64::new(0),
        }
    }

    /// Whether calls on the disk of this part are counted.
    pub fn counts(&self, dir: &str, part: Part) -> bool {
        match &self.planned {
            Some(planned) => planned.spot.has(dir, part),
            None => false,
        }
    }

    /// Counts a call, and says whether it is to fail.
    pub fn fails_next(&self) -> bool {
        let Some(planned) = &self.planned else {
            return false;
        };
        let before = self.calls.fetch_add(1, Ordering::SeqCst);
        match planned.crash {
            Some(_) => before >= planned.call.saturating_sub(1),
            None => before == planned.call.saturating_sub(1),
        }
    }

    /// The image that a crash leaves, where one is planned.
    pub fn crash(&self) -> Option<u64> {
        match &self.planned {
            Some(planned) => planned.crash,
            None => None,
        }
    }
}
