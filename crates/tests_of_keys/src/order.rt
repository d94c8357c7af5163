//! Which indices sign, in order, up to the last one.

ghost use Rattle.bec_disk.specs.Shelved.{shelf_of};
ghost use Rattle.hss_directory.specs.Places.{Holds};
ghost use Rattle.hss_directory.specs.Values.{IsSound};

use bec_disk::{MemDisk, MemShelf};
use hss_directory::{Hss, HssFault, create_hss};
use lm_ots::OtsType;
use lms_tree::{KeyTypes, LmsType, OneThread};
use rand_pcg::Pcg32;
use std::alloc::Global;
use std::test::Fail;

/// Whether a seal has 2,644 bytes and is by the lower key of this number, and by this leaf of it.
fn is_by(seal: &[u8], top: u32, low: u32) -> bool {
    let is_top = seal.get(4..8) == Some(&top.to_be_bytes());
    seal.len() == 2_644 && is_top && seal.get(1_352..1_356) == Some(&low.to_be_bytes())
}

/// How many seals are made in order, up to the first that is not.
fn made_in_order(
    alloc: Global,
    shelf: &mut MemShelf,
    hss: &mut Hss<MemDisk>,
) -> Result<u32, HssFault>
    requires held { Holds (shelf_of shelf.old) hss.old }
    requires sound { IsSound hss.old }
{
    let mut random = Pcg32::new(7, 54);
    'seals: for number in 0..2_000u32 {
        match hss.sign(&OneThread, alloc, shelf, &mut random, b"abc") {
            Ok(seal) => {
                if !is_by(&seal, number / 32, number % 32) {
                    return Ok(number);
                }
            }
            Err(HssFault::Spent) => return Ok(number),
            Err(why) => return Err(why),
        }
    }
    Ok(2_000)
}

#[test]
fn a_key_makes_1024_seals(rt: HostRuntime) -> Result<(), Fail> {
    let alloc = rt.alloc();
    let mut shelf = MemShelf::new(alloc);
    let mut random = Pcg32::new(42, 54);
    let types = KeyTypes {
        lms: LmsType::H5,
        ots: OtsType::W8,
    };
    let mut hss = create_hss(&OneThread, alloc, &mut shelf, "A", types, &mut random)?;
    assert_eq!(rt; made_in_order(alloc, &mut shelf, &mut hss)?, 1_024);
    Ok(())
}
