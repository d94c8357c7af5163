//! One replica of a world over disks in memory that stop: what it answers, and what it has when it is up again.

use lm_ots::OtsType;
use lms_tree::{KeyTypes, LmsType};
use numbered_words::Words;
use std::alloc::{AllocError, Global};
use update_model::OpList;
use world_rules::Site;

const TEXT: &[u8] = b"DATABASE tasks\nTABLE list\nCOLUMN title TEXT 1 40\nSAMPLE \"Home\"\n";

/// After how many calls of each disk an update is stopped, whether it is made all the same, and how many updates there
/// are when the replica is up again. An update takes two calls of the part Used and two of the part Updates: a write
/// and a sync of each.
const STOPS: &[(u32, bool, u32)] = &[(0, false, 1), (1, false, 1), (2, true, 2)];

/// A replica that has made an update.
fn site(alloc: Global) -> Option<Site> {
    let types = KeyTypes {
        lms: LmsType::H5,
        ots: OtsType::W1,
    };
    let mut words = Words::new(1);
    let mut site = Site::create(alloc, [0; 32], TEXT, types, &mut words, 1).ok()?;
    if !makes(alloc, &mut site) {
        return None;
    }
    Some(site)
}

/// Whether the replica makes an update without operations.
fn makes(alloc: Global, site: &mut Site) -> bool {
    let none = OpList::from_vec(Vec::new(alloc));
    site.make(none, &[7; 32]).is_ok()
}

/// Whether the replica is stopped as this row says.
fn is_stopped(alloc: Global, calls: u32, made: bool, count: u32) -> Result<bool, AllocError> {
    let Some(mut site) = site(alloc) else {
        return Ok(false);
    };
    site.arm(calls);
    let same = makes(alloc, &mut site) == made;
    site.sink();
    let is_told = site.is_down() && !site.starved();
    let again = site.restart(1)?;
    Ok(same && is_told && !again.is_down() && again.store().len() == count)
}

#[test]
fn what_was_made_is_there_again(rt: HostRuntime) -> Result<(), AllocError> {
    for (calls, made, count) in STOPS {
        assert!(rt; is_stopped(rt.alloc(), *calls, *made, *count)?);
    }
    Ok(())
}
