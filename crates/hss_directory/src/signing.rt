//! A key signs a message with drawn bytes.

ghost use Rattle.std.specs.Prelude.{◌≡◌, ◌≤◌, IsErrOf, MatchResult};
ghost use Rattle.bec_bytes.specs.Causes.{Rose};
ghost use Rattle.hss_directory.specs.Signing.{SignsBy, SignsNone};
ghost use Rattle.hss_directory.specs.Values.{HasLeft};

use crate::fault::HssFault;
use bec_disk::Disk;
use key_index::KeyStore;
use rand_core::Rng;
use std::alloc::Global;
use update_model::signature_len;

/// The signature of a message by the least index of a key that is not used, made with the next 32 bytes of `random`.
/// The memory that it wants is taken first.
pub(crate) fn signature_of<D: Disk, R: Rng>(
    alloc: Global,
    key: &mut KeyStore<D>,
    random: &mut R,
    msg: &[u8],
) -> Result<Vec<u8>, HssFault>
    requires { HasLeft key.old }
    ensures signs { MatchResult result
        (λ sig. SignsBy key.old (R.stream random.old) msg.now sig.items key.new (R.stream random.new))
        (λ why. SignsNone key.old (R.stream random.old) why key.new (R.stream random.new)) }
    ensures failed { IsErrOf result HssFault.Disk → Rose key.old.parts.used_faults key.new.parts.used_faults }
{
    let mut sig = vec![in alloc; 0u8; signature_len(&key.public()) as usize]?;
    let mut c = [0; 32];
    random.fill_bytes(&mut c);
    match key.sign(&c, msg, sig.as_mut_slice()) {
        Ok(_index) => Ok(sig),
        Err(_why) => Err(HssFault::Disk),
    }
}
