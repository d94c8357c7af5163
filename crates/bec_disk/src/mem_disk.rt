ghost use Rattle.std.specs.Prelude.{◌≡◌, ◌⊎◌, ◌≤◌, ◌+◌, ◌-◌, ◌^◌, ◌++◌, ◌∷◌, [], Some, IsTrue, IfOk, OnOk, OnErr};
ghost use Rattle.std.specs.Prelude.{length, take, drop};
ghost use Rattle.std.specs.Bool.{OnTrue, OnFalse};
ghost use Rattle.bec_bytes.specs.Causes.{HasCause};
ghost use Rattle.bec_disk.specs.Disk.{IsImage, Writes, Cuts, Syncs, cut_at, overwritten, written_at};
ghost use Rattle.bec_disk.specs.Plan.{Counts, new_plan};
ghost use Rattle.bec_disk.specs.Replay.{IsNoted, IsRecorded, state_of};

use crate::disk::Disk;
use crate::disk_call::DiskCall;
use crate::disk_fault::DiskFault;
use crate::disk_plan::DiskPlan;
use crate::part::Part;
use crate::place::Place;
use crate::replaying::{crash_image, overwrite};
use crate::shelved::{Shelved, index_of};
use bec_bytes::Counted;
use std::alloc::{AllocError, Global};
use std::marker::Model;
use update_model::ByteList;

/// A disk in memory, some of whose calls fail, for tests of what faults and crashes do. It keeps a
/// record of its calls, by which it finds what a crash may leave.
#[derive(Drop)]
pub struct MemDisk {
    alloc: Global,
    place: Option<Place>,
    start: Vec<u8>,
    calls: Vec<DiskCall>,
    bytes: Vec<u8>,
    plan: DiskPlan,
}

impl Model for MemDisk {
    ghost use Rattle.std.specs.Prelude.{◌≡◌};
    ghost use Rattle.bec_disk.specs.Replay.{MemDiskState, replayed, begun_with};

    ghost Value = { MemDiskState };

    ghost view = { λ d. record {
      slot = d.place;
      start = d.start.items;
      calls = d.calls.items;
      plan = d.plan;
    } };

    ghost invariant = { λ d. d.bytes.items ≡ (replayed (begun_with d.start.items) d.calls.items).seen };
}

impl MemDisk {
    ghost use Rattle.std.specs.List.{position};
    ghost use Rattle.bec_disk.specs.Slot.{Slot, slot};
    ghost use Rattle.bec_disk.specs.Left.{armed};
    ghost use Rattle.bec_disk.specs.Replay.{new_disk, made_disk, settled_as, numbered_anew};
    ghost use Rattle.bec_disk.specs.Shelved.{is_at};

    /// An empty disk that fails at no numbered call.
    pub fn new(alloc: Global) -> MemDisk
        ensures { result ≡ new_disk [] [] (2 ^ 64 - 1) }
    {
        MemDisk::empty(alloc, None, Vec::new(alloc), u64::MAX)
    }

    /// An empty disk that is made as this part.
    pub fn made(alloc: Global, place: Place) -> MemDisk
        ensures { result ≡ made_disk place }
    {
        MemDisk::empty(alloc, Some(place), Vec::new(alloc), u64::MAX)
    }

    /// An empty disk that fails at the calls with these numbers, counted from 1.
    pub fn failing(alloc: Global, calls: &[u32]) -> Result<MemDisk, AllocError>
        ensures { IfOk result (λ disk. disk ≡ new_disk [] calls.now (2 ^ 64 - 1)) }
    {
        Ok(MemDisk::empty(alloc, None, calls.to_vec(alloc)?, u64::MAX))
    }

    /// An empty disk that passes `n` calls and then fails every call.
    pub fn stopping(alloc: Global, n: u32) -> MemDisk
        ensures { result ≡ new_disk [] [] n }
    {
        MemDisk::empty(alloc, None, Vec::new(alloc), u64::from(n))
    }

    fn empty(alloc: Global, place: Option<Place>, failing: Vec<u32>, last: u64) -> MemDisk
        ensures { result ≡ record { slot = place; start = []; calls = []; plan = new_plan failing.items last } }
    {
        MemDisk {
            alloc,
            place,
            start: Vec::new(alloc),
            calls: Vec::new(alloc),
            bytes: Vec::new(alloc),
            plan: DiskPlan::new(failing, last),
        }
    }

    /// Settles the disk as it is handed out as this part, with a count of 0. Where there is no memory
    /// for that nothing changes.
    pub fn settle_as(&mut self, dir: &str, part: Part) -> Result<(), AllocError>
        ensures settled { OnOk result (self.new ≡ settled_as (slot dir.now part) self.old) }
        ensures same { OnErr result (self.new ≡ self.old) }
    {
        let place = Place::new(self.alloc, dir, part)?;
        if !note(&mut self.calls, DiskCall::Settled) {
            return Err(AllocError);
        }
        self.place = Some(place);
        self.plan.clear_faults();
        Ok(())
    }

    /// Lets the next call be the first.
    pub fn number_anew(&mut self)
        ensures { self.new ≡ numbered_anew self.old }
    {
        self.plan.number_anew();
    }

    /// Plans the disk's calls from the next one on, which is the first: those that `failing` numbers, and those behind
    /// the number `last`, fail. What is read, the images and the count stay.
    pub fn plan_calls(&mut self, failing: Vec<u32>, last: u64)
        ensures { self.new ≡ armed failing.items last self.old }
    {
        self.plan.arm(failing, last);
    }

    /// Lets the disk pass so many calls more and then fail every call. What is read, the images and the count stay.
    pub fn arm(&mut self, calls: u32)
        ensures { self.new ≡ armed [] calls self.old }
    {
        self.plan.arm(Vec::new(self.alloc), u64::from(calls));
    }

    /// How many faults it counted.
    pub fn faults(&self) -> u64
        ensures { result ≡ self.now.plan.faults }
    {
        self.plan.faults()
    }

    /// Which of these entries is that of the part that it is of.
    pub fn index_in(&self, entries: &[Shelved]) -> Option<usize>
        ensures { (place : Slot) → self.now.slot ≡ Some place → result ≡ position (is_at place) entries.now }
    {
        let place = self.place.as_ref()?;
        index_of(entries, place.dir(), place.part())
    }

    /// Whether a call failed that was neither a numbered one nor behind the stop. That is for want of
    /// memory.
    pub fn starved(&self) -> bool
        ensures { result ≡ self.now.plan.starved }
    {
        self.plan.starved()
    }

    /// How many writes and cuts that were to fail count for nothing, since there was no memory for their record.
    pub fn unrecorded(&self) -> u64
        ensures { result ≡ self.now.plan.unrecorded }
    {
        self.plan.unrecorded()
    }

    /// A disk with one of the images that a crash may leave now: for 0 what was synced last, for 1
    /// what is read, and else a mixture by the number. It fails at no numbered call, and is of no
    /// part.
    pub fn restart(&self, choice: u64) -> Result<MemDisk, AllocError>
        ensures image { IfOk result (λ disk. IsImage (state_of self.now).now disk.start) }
        ensures fresh { IfOk result (λ disk. disk ≡ new_disk disk.start [] (2 ^ 64 - 1)) }
        ensures synced { choice ≡ 0 → IfOk result (λ disk. disk.start ≡ (state_of self.now).now.synced) }
        ensures reads { choice ≡ 1 → IfOk result (λ disk. disk.start ≡ (state_of self.now).seen) }
    {
        let alloc = self.alloc;
        let start = crash_image(alloc, choice, &self.start, &self.calls, &self.bytes)?;
        let bytes = start.to_vec(alloc)?;
        Ok(MemDisk {
            alloc,
            place: None,
            start,
            calls: Vec::new(alloc),
            bytes,
            plan: DiskPlan::new(Vec::new(alloc), u64::MAX),
        })
    }
}

impl Counted for MemDisk {
    ghost faults = { λ disk. disk.plan.faults };
}

impl Disk for MemDisk {
    ghost use Rattle.bec_disk.specs.Replay.{state_of};
    ghost use Rattle.bec_disk.specs.Sound.{state_reads};

    ghost state = { state_of };

    ghost reads = { λ disk _. state_reads disk };

    fn len(&mut self) -> Result<u64, DiskFault>
        ensures value { IfOk result (λ n. n ≡ length (state_of self.old).seen) }
        ensures same { state_of self.new ≡ state_of self.old }
        ensures recorded { self.new.plan.unrecorded ≡ self.old.plan.unrecorded }
        ensures cause { HasCause self.old.plan.faults self.new.plan.faults result }
        ensures counts { Counts self.old.plan result self.new.plan }
    {
        self.plan.count_call()?;
        Ok(self.bytes.len() as u64)
    }

    fn read(&mut self, at: u64, buf: &mut [u8]) -> Result<(), DiskFault>
        requires { IsTrue (state_of self.old).tells → at + length buf.old ≤ length (state_of self.old).seen }
        ensures bytes { OnOk result (buf.new ≡ take (length buf.old) (drop at (state_of self.old).seen)) }
        ensures same { state_of self.new ≡ state_of self.old }
        ensures recorded { self.new.plan.unrecorded ≡ self.old.plan.unrecorded }
        ensures cause { HasCause self.old.plan.faults self.new.plan.faults result }
        ensures counts { Counts self.old.plan result self.new.plan }
    {
        self.plan.count_call()?;
        buf.copy_from_slice(&self.bytes[at as usize..at as usize + buf.len()]);
        Ok(())
    }

    fn write_at(&mut self, at: u64, bytes: &[u8]) -> Result<(), DiskFault>
        requires { IsTrue (state_of self.old).tells → at ≤ length (state_of self.old).seen }
        ensures writes { Writes (state_of self.old) at bytes.now result (state_of self.new) }
        ensures recorded { IsRecorded self.old (written_at at (length bytes.now) (state_of self.old).now) self.new }
        ensures unseen { OnErr result ((state_of self.new).seen ≡ (state_of self.old).seen) }
        ensures cause { HasCause self.old.plan.faults self.new.plan.faults result }
        ensures counts { Counts self.old.plan result self.new.plan }
    {
        if let Err(fault) = self.plan.count_call() {
            note_failed(
                &mut self.calls,
                &mut self.plan,
                DiskCall::WriteFailed(at, bytes.len() as u64),
            );
            return Err(fault);
        }
        let Ok(()) = write(self.alloc, &mut self.bytes, &mut self.calls, at, bytes) else {
            return Err(self.plan.starve());
        };
        Ok(())
    }

    fn cut(&mut self, len: u64) -> Result<(), DiskFault>
        requires { IsTrue (state_of self.old).tells → len ≤ length (state_of self.old).seen }
        ensures cuts { Cuts (state_of self.old) len result (state_of self.new) }
        ensures recorded { IsRecorded self.old (cut_at len (state_of self.old).now) self.new }
        ensures unseen { OnErr result ((state_of self.new).seen ≡ (state_of self.old).seen) }
        ensures cause { HasCause self.old.plan.faults self.new.plan.faults result }
        ensures counts { Counts self.old.plan result self.new.plan }
    {
        if let Err(fault) = self.plan.count_call() {
            note_failed(&mut self.calls, &mut self.plan, DiskCall::CutFailed(len));
            return Err(fault);
        }
        if !note(&mut self.calls, DiskCall::Cut(len)) {
            return Err(self.plan.starve());
        }
        self.bytes.truncate(len as usize);
        Ok(())
    }

    fn sync(&mut self) -> Result<(), DiskFault>
        ensures syncs { Syncs (state_of self.old) result (state_of self.new) }
        ensures recorded { self.new.plan.unrecorded ≡ self.old.plan.unrecorded }
        ensures cause { HasCause self.old.plan.faults self.new.plan.faults result }
        ensures counts { Counts self.old.plan result self.new.plan }
    {
        self.plan.count_call()?;
        if !note(&mut self.calls, DiskCall::Settled) {
            return Err(self.plan.starve());
        }
        Ok(())
    }
}

/// Adds a call to the record, where there is room.
fn note(calls: &mut Vec<DiskCall>, call: DiskCall) -> bool
    ensures added { OnTrue result (calls.new.items ≡ calls.old.items ++ call ∷ []) }
    ensures full { OnFalse result (calls.new.items ≡ calls.old.items) }
{
    calls.push(call).is_ok()
}

/// Adds a call that was to fail to the record. Where there is no room, the plan counts it.
fn note_failed(calls: &mut Vec<DiskCall>, plan: &mut DiskPlan, call: DiskCall)
    ensures noted { IsNoted call calls.old.items calls.new.items plan.old plan.new }
    ensures faults { plan.new.faults ≡ plan.old.faults }
{
    if !note(calls, call) {
        plan.miss();
    }
}

/// Writes in place, and adds the call to the record.
fn write(
    alloc: Global,
    image: &mut Vec<u8>,
    calls: &mut Vec<DiskCall>,
    at: u64,
    bytes: &[u8],
) -> Result<(), AllocError>
    requires { at ≤ length image.old.items }
    ensures image { OnOk result (image.new.items ≡ overwritten image.old.items at bytes.now) }
    ensures calls { OnOk result (calls.new.items ≡ calls.old.items ++ DiskCall.Wrote at bytes.now ∷ []) }
    ensures same_image { OnErr result (image.new.items ≡ image.old.items) }
    ensures same_calls { OnErr result (calls.new.items ≡ calls.old.items) }
{
    let copy = ByteList::from_vec(bytes.to_vec(alloc)?);
    calls.push(DiskCall::Wrote(at, copy))?;
    if let Err(error) = overwrite(image, at as usize, bytes) {
        calls.pop();
        return Err(error);
    }
    Ok(())
}
