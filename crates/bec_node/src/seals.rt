//! The commands over seals.

ghost use Rattle.std.specs.Prelude.{◌≡◌, IsTrue};
ghost use Rattle.key_directory.specs.Parts.{IsHome};
ghost use Rattle.seal_commands.specs.Sealing.{HsskeyRun, SealRun};
ghost use Rattle.seal_commands.specs.Unsealing.{UnsealAnswer};
ghost use Rattle.outcomes.specs.Outcome.{ComesTo};
ghost use Rattle.bec_node.specs.Families.{TellsSeals, from_seal};

use bec_bytes::Source;
use bec_disk::Shelf;
use lms_tree::{KeyTypes, LeafGenerator};
use outcomes::Refusal;
use rand_core::Rng;
use seal_commands::{SealRefusal, hsskey, seal, unseal};
use std::alloc::Global;

/// Draws a two-level key for a directory that has none.
pub(crate) fn drawn_hss<G: LeafGenerator, H: Shelf, R: Rng>(
    generator: &G,
    alloc: Global,
    shelf: &mut H,
    directory: &str,
    types: KeyTypes,
    random: &mut R,
) -> Result<Vec<u8>, Refusal>
    requires { IsTrue (H.state shelf.old).tells → IsHome (H.state shelf.old) }
    ensures { TellsSeals (HsskeyRun types.lms types.ots (R.stream random.old) (R.stream random.new) directory.now
        (H.state shelf.old) (H.state shelf.new))
        (H.state shelf.old) (H.state shelf.new) (H.faults shelf.old) (H.faults shelf.new) result }
{
    match hsskey(generator, alloc, shelf, directory, types, random) {
        Ok(text) => Ok(text),
        Err(why) => Err(seal_refusal(why)),
    }
}

/// Seals the input by the two-level key of a directory.
pub(crate) fn sealed<G: LeafGenerator, H: Shelf, R: Rng, S: Source>(
    generator: &G,
    alloc: Global,
    shelf: &mut H,
    directory: &str,
    random: &mut R,
    input: &mut S,
) -> Result<Vec<u8>, Refusal>
    requires { IsTrue (H.state shelf.old).tells → IsHome (H.state shelf.old) }
    ensures { TellsSeals (SealRun directory.now (H.state shelf.old) (H.state shelf.new) (R.stream random.old)
        (R.stream random.new) (S.left input.old) (S.left input.new) (S.faults input.old) (S.faults input.new))
        (H.state shelf.old) (H.state shelf.new) (H.faults shelf.old) (H.faults shelf.new) result }
{
    match seal(generator, alloc, shelf, directory, random, input) {
        Ok(text) => Ok(text),
        Err(why) => Err(seal_refusal(why)),
    }
}

/// What is said where the seal is one of the input by this key.
pub(crate) fn unsealed<S: Source>(
    alloc: Global,
    key: &[u8],
    signature: &[u8],
    input: &mut S,
) -> Result<Vec<u8>, Refusal>
    ensures { ComesTo (UnsealAnswer from_seal key.now signature.now) (S.left input.old) (S.left input.new)
        (S.faults input.old) (S.faults input.new) result }
{
    match unseal(alloc, key, signature, input) {
        Ok(text) => Ok(text),
        Err(why) => Err(seal_refusal(why)),
    }
}

/// Why a command over seals is not done, as the program tells it.
fn seal_refusal(why: SealRefusal) -> Refusal
    ensures { result ≡ from_seal why }
{
    match why {
        SealRefusal::BadSeal => Refusal::BadSeal,
        SealRefusal::InputTooLong => Refusal::InputTooLong,
        SealRefusal::KeyThere => Refusal::KeyThere,
        SealRefusal::NoKey => Refusal::NoKey,
        SealRefusal::BadKey => Refusal::BadKey,
        SealRefusal::KeySpent(count) => Refusal::KeySpent(count),
        SealRefusal::Store => Refusal::StoreFault,
        SealRefusal::Stream => Refusal::Stream,
        SealRefusal::Memory => Refusal::Memory,
    }
}
