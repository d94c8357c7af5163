//! `hsskey` and `seal`.

ghost use Rattle.std.specs.Prelude.{◌≡◌, ◌≤◌, ◌⊎◌, IfSome, IsErrOf, IsTrue};
ghost use Rattle.bec_bytes.specs.Causes.{Rose};
ghost use Rattle.key_directory.specs.Parts.{IsHome};
ghost use Rattle.hss_directory.specs.Calls.{HeldRose, KeepsHss};
ghost use Rattle.hss_directory.specs.Places.{Holds};
ghost use Rattle.hss_directory.specs.Values.{IsReadable, IsSound, IsSpent};
ghost use Rattle.seal_commands.specs.Sealing.{HsskeyRun, SealRun, SealsInput, SealsMessage};

use crate::reading::read_input;
use crate::refusal::{SealRefusal, refusal_of};
use crate::texts::hex_line;
use bec_bytes::Source;
use bec_disk::Shelf;
use hss_directory::{Hss, create_hss, open_hss};
use lms_tree::{KeyTypes, LeafGenerator};
use rand_core::Rng;
use std::alloc::Global;

/// Draws a two-level key whose levels are of these types for a directory that has none, and answers the line of its
/// public key.
pub fn hsskey<G: LeafGenerator, H: Shelf, R: Rng>(
    generator: &G,
    alloc: Global,
    shelf: &mut H,
    dir: &str,
    types: KeyTypes,
    random: &mut R,
) -> Result<Vec<u8>, SealRefusal>
    requires { IsTrue (H.state shelf.old).tells → IsHome (H.state shelf.old) }
    ensures comes { HsskeyRun types.lms types.ots (R.stream random.old) (R.stream random.new) dir.now
        (H.state shelf.old) (H.state shelf.new) result }
    ensures home { IsTrue (H.state shelf.old).tells → IsHome (H.state shelf.new) }
    ensures failed { IsErrOf result SealRefusal.Store → Rose (H.faults shelf.old) (H.faults shelf.new) }
{
    let hss = match create_hss(generator, alloc, shelf, dir, types, random) {
        Ok(hss) => hss,
        Err(why) => return Err(refusal_of(why, types.lms.leaf_count())),
    };
    let public = hss.public();
    hss.close(shelf);
    Ok(hex_line(alloc, &public)?)
}

/// Seals the input by the two-level key of a directory, and answers the line of the seal. The input is read once the
/// key is open.
pub fn seal<G: LeafGenerator, H: Shelf, R: Rng, S: Source>(
    generator: &G,
    alloc: Global,
    shelf: &mut H,
    dir: &str,
    random: &mut R,
    input: &mut S,
) -> Result<Vec<u8>, SealRefusal>
    requires { IsTrue (H.state shelf.old).tells → IsHome (H.state shelf.old) }
    ensures comes { SealRun dir.now (H.state shelf.old) (H.state shelf.new) (R.stream random.old) (R.stream random.new)
        (S.left input.old) (S.left input.new) (S.faults input.old) (S.faults input.new) result }
    ensures home { IsTrue (H.state shelf.old).tells → IsHome (H.state shelf.new) }
    ensures failed { IsErrOf result SealRefusal.Store → Rose (H.faults shelf.old) (H.faults shelf.new) }
{
    let mut hss = match open_hss(generator, alloc, shelf, dir) {
        Ok(hss) => hss,
        Err(why) => return Err(refusal_of(why, 0)),
    };
    let sealed = seal_input(generator, alloc, shelf, &mut hss, random, input);
    hss.close(shelf);
    sealed
}

/// Reads the input whole, and seals it by a key that is open.
fn seal_input<G: LeafGenerator, H: Shelf, R: Rng, S: Source>(
    generator: &G,
    alloc: Global,
    shelf: &mut H,
    hss: &mut Hss<H::D>,
    random: &mut R,
    input: &mut S,
) -> Result<Vec<u8>, SealRefusal>
    requires held { IsTrue (H.state shelf.old).tells → Holds (H.state shelf.old) hss.old }
    requires sound { IsSound hss.old }
    ensures seals { SealsInput hss.old (H.state shelf.old) (R.stream random.old) (R.stream random.new)
        (S.left input.old) (S.left input.new) (S.faults input.old) (S.faults input.new) result hss.new
        (H.state shelf.new) }
    ensures keeps { KeepsHss (H.state shelf.old) hss.old (H.state shelf.new) hss.new }
    ensures later { H.faults shelf.old ≤ H.faults shelf.new }
    ensures failed { IsErrOf result SealRefusal.Store → Rose (H.faults shelf.old) (H.faults shelf.new)
        ⊎ HeldRose hss.old hss.new }
{
    let msg = read_input(alloc, input)?;
    seal_message(generator, alloc, shelf, hss, random, msg.as_slice())
}

/// Seals a message by a key that is open, and answers the line of the seal.
fn seal_message<G: LeafGenerator, H: Shelf, R: Rng>(
    generator: &G,
    alloc: Global,
    shelf: &mut H,
    hss: &mut Hss<H::D>,
    random: &mut R,
    msg: &[u8],
) -> Result<Vec<u8>, SealRefusal>
    requires held { IsTrue (H.state shelf.old).tells → Holds (H.state shelf.old) hss.old }
    requires sound { IsSound hss.old }
    ensures seals { SealsMessage hss.old (H.state shelf.old) (R.stream random.old) (R.stream random.new) msg.now result
        hss.new (H.state shelf.new) }
    ensures reads { IfSome hss.old.lower (λ lower. IsSpent lower.key → IsReadable lower.key) }
    ensures keeps { KeepsHss (H.state shelf.old) hss.old (H.state shelf.new) hss.new }
    ensures later { H.faults shelf.old ≤ H.faults shelf.new }
    ensures failed { IsErrOf result SealRefusal.Store → Rose (H.faults shelf.old) (H.faults shelf.new)
        ⊎ HeldRose hss.old hss.new }
{
    match hss.sign(generator, alloc, shelf, random, msg) {
        Ok(seal) => Ok(hex_line(alloc, seal.as_slice())?),
        Err(why) => Err(refusal_of(why, hss.top_count())),
    }
}
