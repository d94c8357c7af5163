//! One caller of a shared replica, whose acts come one after another.

ghost use Rattle.std.specs.Prelude.{◌≡◌};

use crate::replicas::{key, shared};
use bec_disk::MemDisk;
use key_index::KeyStore;
use replica::{MakeFault, Side};
use shared_replica::{Acted, Pass, Shared};
use std::alloc::Global;
use std::sync::Wait;
use std::test::Fail;
use update_codec::id_of;
use update_model::{OpList, UpdateId};

/// Makes an update without operations.
pub fn make<R: Wait>(
    rt: &R,
    alloc: Global,
    shared: &Shared<MemDisk>,
    pass: Pass<MemDisk>,
    key: &mut KeyStore<MemDisk>,
) -> Acted<MemDisk, Result<UpdateId, MakeFault>>
    requires { pass.lock ≡ shared.now.lock }
    ensures { result.pass.lock ≡ shared.now.lock }
{
    let none = OpList::from_vec(Vec::new(alloc));
    shared.make(rt, alloc, pass, none, key, &[7; 32])
}

/// Whether two updates are made, of which the second is the only head, and fetched in the order of their positions.
fn are_fetched<R: Wait>(
    rt: &R,
    alloc: Global,
    shared: &Shared<MemDisk>,
    pass: Pass<MemDisk>,
    key: &mut KeyStore<MemDisk>,
) -> Option<bool>
    requires { pass.lock ≡ shared.now.lock }
{
    let first = make(rt, alloc, shared, pass, key);
    let second = make(rt, alloc, shared, first.pass, key);
    let seen = shared.snapshot(rt, alloc, second.pass);
    let picture = seen.answer.ok()?;
    let counted = shared.len(rt, seen.pass);
    if counted.answer != 2 {
        return None;
    }
    let fetched = shared.fetch_some(rt, alloc, counted.pass, &[1, 0]);
    let pieces = fetched.answer.ok()?;
    let [late, early] = pieces.as_slice() else {
        return None;
    };
    let head = id_of(late.as_slice());
    let are_made = first.answer == Ok(id_of(early.as_slice())) && second.answer == Ok(head);
    Some(are_made && picture.heads.as_slice() == [head].as_slice())
}

/// Whether an update is refused for a fault of the log, and the next one is made.
fn goes_on<R: Wait>(
    rt: &R,
    alloc: Global,
    shared: &Shared<MemDisk>,
    pass: Pass<MemDisk>,
    key: &mut KeyStore<MemDisk>,
) -> bool
    requires { pass.lock ≡ shared.now.lock }
{
    let refused = make(rt, alloc, shared, pass, key);
    let made = make(rt, alloc, shared, refused.pass, key);
    refused.answer == Err(MakeFault::DiskFault(Side::Log)) && made.answer.is_ok()
}

#[test]
fn updates_are_fetched_in_the_order_of_their_positions(rt: HostRuntime) -> Result<(), Fail> {
    let alloc = rt.alloc();
    let (Some((shared, pass)), Some(mut key)) = (shared(alloc, MemDisk::new(alloc)), key(alloc, 1))
    else {
        panic!(rt; "no replica")
    };
    assert_eq!(rt;
        are_fetched(&rt, alloc, &shared, pass, &mut key),
        Some(true)
    );
    Ok(())
}

// Opening the log takes three calls of its disk, and the fourth is the first of a commit.
#[test]
fn after_a_fault_the_next_update_is_made(rt: HostRuntime) -> Result<(), Fail> {
    let alloc = rt.alloc();
    let log = MemDisk::failing(alloc, &[4])?;
    let (Some((shared, pass)), Some(mut key)) = (shared(alloc, log), key(alloc, 1)) else {
        panic!(rt; "no replica")
    };
    assert!(rt; goes_on(&rt, alloc, &shared, pass, &mut key));
    Ok(())
}
