//! Two-level keys: created, opened, signing, and put back.

ghost use Rattle.std.specs.Prelude.{◌≡◌, ◌≤◌, ◌<◌, ◌⊎◌, IsTrue, IfOk, IfErr, IfSome, IsErrOf, OnOk};
ghost use Rattle.bec_bytes.specs.Causes.{Rose};
ghost use Rattle.bec_disk.specs.declared.part.Part.TheVariants.{Key, Used};
ghost use Rattle.lms_tree.specs.LmsKind.{leaf_count};
ghost use Rattle.lms_tree.specs.SecretKey.{public_key};
ghost use Rattle.key_index.specs.Creating.{after_draw, drawn_key};
ghost use Rattle.key_index.specs.Payload.{payload_of};
ghost use Rattle.key_index.specs.Used.{none_used};
ghost use Rattle.key_directory.specs.Keys.{IsNoKey};
ghost use Rattle.key_directory.specs.Parts.{LetsNewGo, part_in, reading};
ghost use Rattle.hss_chain.specs.Sealing.{SealedBy, public_bytes};
ghost use Rattle.hss_directory.specs.Calls.{BeginsHss, CreatesHss, EndsHss, HeldRose, IsOpeningCause, KeepsHss};
ghost use Rattle.hss_directory.specs.Calls.{OpensHss, PutsHss, RefusesToSign, Signs};
ghost use Rattle.hss_directory.specs.Places.{AreHome, Holds, OnlyReads};
ghost use Rattle.hss_directory.specs.Values.{IsReadable, IsSound, IsSpent};

use crate::current::{fill, put_lower, ready_lower, seal_below};
use crate::fault::HssFault;
use crate::lower::{Lower, types_of};
use crate::opening::current_lower;
use bec_disk::{Disk, Shelf};
use hss_chain::public_array;
use key_directory::{KeyMaker, new_key, put_key, take_key};
use key_index::KeyStore;
use lms_tree::{KeyTypes, LeafGenerator};
use rand_core::Rng;
use std::alloc::Global;
use std::marker::Model;

/// A key of two levels: the top key of a directory, which signs lower keys, and the current lower key, which signs
/// messages.
#[derive(Drop)]
pub struct Hss<D: Disk> {
    dir: String,
    top: KeyStore<D>,
    lower: Option<Lower<D>>,
}

impl<D: Disk> Model for Hss<D> {
    ghost use Rattle.std.specs.Prelude.{string_bytes};
    ghost use Rattle.hss_directory.specs.Values.{HssState};

    ghost Value = { HssState };

    ghost view = { λ hss. record { dir = string_bytes hss.dir; top = hss.top; lower = hss.lower } };
}

/// Creates a key of two levels in a directory where the part Key is absent. Its types are the top key's and those
/// of the lower keys that are made for it. The generator computes its leaves. Nothing is signed yet. Where it is
/// refused, every part is in its place again.
pub fn create_hss<G: LeafGenerator, H: Shelf, R: Rng>(
    generator: &G,
    alloc: Global,
    shelf: &mut H,
    dir: &str,
    types: KeyTypes,
    random: &mut R,
) -> Result<Hss<H::D>, HssFault>
    requires { IsTrue (H.state shelf.old).tells → AreHome (H.state shelf.old) dir.now }
    ensures creates { IfOk result (λ hss. CreatesHss (drawn_key types.lms types.ots (R.stream random.old))
        (H.state shelf.old) dir.now hss (H.state shelf.new)) }
    ensures lets_go { IfErr result (λ _. (H.state shelf.new ≡ H.state shelf.old)
        ⊎ LetsNewGo Key Used (payload_of (drawn_key types.lms types.ots (R.stream random.old)))
        (none_used (leaf_count types.lms)) (H.state shelf.old) dir.now (H.state shelf.new)) }
    ensures refused { IsErrOf result HssFault.KeyThere → IsTrue (H.state shelf.old).tells
        → IsNoKey (reading (part_in (H.state shelf.old) dir.now Key)) → ⊥ }
    ensures answers { IfErr result (λ why. (why ≡ HssFault.Disk)
        ⊎ ((why ≡ HssFault.KeyThere) ⊎ (why ≡ HssFault.Memory))) }
    ensures drawn { OnOk result (R.stream random.new ≡ after_draw (R.stream random.old)) }
    ensures may_draw { (R.stream random.new ≡ R.stream random.old)
        ⊎ (R.stream random.new ≡ after_draw (R.stream random.old)) }
    ensures begins { IfOk result (λ hss. BeginsHss (H.state shelf.old) dir.now hss (H.state shelf.new)) }
    ensures later { H.faults shelf.old ≤ H.faults shelf.new }
    ensures failed { IsErrOf result HssFault.Disk → Rose (H.faults shelf.old) (H.faults shelf.new) }
{
    let name = String::from_str(alloc, dir)?;
    let top = new_key(generator, alloc, shelf, dir, types, random)?;
    Ok(Hss {
        dir: name,
        top,
        lower: None,
    })
}

/// Opens the key of two levels of a directory, with its current lower key: that of the top index that was used
/// last, where one was and the part Peers of that directory is not absent. The generator computes the leaves of
/// both. It writes nothing. Where it is refused, every part is in its place again.
pub fn open_hss<G: LeafGenerator, H: Shelf>(
    generator: &G,
    alloc: Global,
    shelf: &mut H,
    dir: &str,
) -> Result<Hss<H::D>, HssFault>
    requires { IsTrue (H.state shelf.old).tells → AreHome (H.state shelf.old) dir.now }
    ensures opens { IfOk result (λ hss. OpensHss (H.state shelf.old) dir.now hss (H.state shelf.new)) }
    ensures lets_go { IfErr result (λ _. OnlyReads (H.state shelf.old) (H.state shelf.new)) }
    ensures refused { IfErr result (λ why. IsTrue (H.state shelf.old).tells
        → IsOpeningCause (H.state shelf.old) dir.now why) }
    ensures begins { IfOk result (λ hss. BeginsHss (H.state shelf.old) dir.now hss (H.state shelf.new)) }
    ensures later { H.faults shelf.old ≤ H.faults shelf.new }
    ensures failed { IsErrOf result HssFault.Disk → Rose (H.faults shelf.old) (H.faults shelf.new) }
{
    let name = String::from_str(alloc, dir)?;
    let top = take_key(generator, alloc, shelf, dir)?;
    let maker = KeyMaker { generator, alloc };
    match current_lower(&maker, shelf, dir, &top) {
        Ok(lower) => Ok(Hss {
            dir: name,
            top,
            lower,
        }),
        Err(why) => {
            put_key(shelf, dir, top);
            Err(why)
        }
    }
}

impl<D: Disk> Hss<D> {
    /// The public key: the number of levels, and the top key.
    pub fn public(&self) -> [u8; 60]
        ensures { result ≡ public_bytes (public_key self.now.top.secret) }
    {
        public_array(&self.top.public())
    }

    /// How many indices the top key has, each of which signs one lower key.
    pub fn top_count(&self) -> u32
        ensures { result ≡ leaf_count self.now.top.secret.lms }
    {
        types_of(&self.top.public()).lms.leaf_count()
    }

    /// The seal of a message. The current lower key signs it by its least index that is not used; where there is
    /// none or it is spent, the next one is made first, by the least top index that is not used, and the generator
    /// computes its leaves. An index is on its disk before it signs.
    pub fn sign<G: LeafGenerator, H: Shelf<D = D>, R: Rng>(
        &mut self,
        generator: &G,
        alloc: Global,
        shelf: &mut H,
        random: &mut R,
        msg: &[u8],
    ) -> Result<Vec<u8>, HssFault>
        requires held { IsTrue (H.state shelf.old).tells → Holds (H.state shelf.old) self.old }
        requires sound { IsSound self.old }
        ensures signs { IfOk result (λ seal. Signs (R.stream random.old) (H.state shelf.old) self.old msg.now seal.items
            self.new (H.state shelf.new) (R.stream random.new)) }
        ensures refused { IfErr result (λ why. RefusesToSign (R.stream random.old) (H.state shelf.old) self.old msg.now
            why self.new (H.state shelf.new) (R.stream random.new)) }
        ensures sealed { IfOk result (λ seal. SealedBy (public_bytes (public_key self.old.top.secret)) msg.now
            seal.items) }
        ensures keeps { KeepsHss (H.state shelf.old) self.old (H.state shelf.new) self.new }
        ensures reads { IfSome self.old.lower (λ lower. IsSpent lower.key → IsReadable lower.key) }
        ensures later { H.faults shelf.old ≤ H.faults shelf.new }
        ensures failed { IsErrOf result HssFault.Disk → Rose (H.faults shelf.old) (H.faults shelf.new)
            ⊎ HeldRose self.old self.new }
    {
        let dir = self.dir.as_str();
        let maker = KeyMaker { generator, alloc };
        let mut lower = ready_lower(&maker, shelf, dir, &mut self.top, self.lower.take(), random)?;
        let sealed = seal_below(alloc, &self.top.public(), &mut lower, random, msg);
        fill(&mut self.lower, lower);
        sealed
    }

    /// Puts all parts back that the key holds. A disk that counted a fault makes the shelf's count rise.
    pub fn close<H: Shelf<D = D>>(self, shelf: &mut H)
        requires held { IsTrue (H.state shelf.old).tells → Holds (H.state shelf.old) self }
        requires sound { IsSound self }
        ensures puts { PutsHss (H.state shelf.old) self (H.state shelf.new) }
        ensures ends { EndsHss (H.state shelf.old) self.dir (H.state shelf.new) }
        ensures reads { IsReadable self.top × IfSome self.lower (λ lower. IsReadable lower.key) }
        ensures later { H.faults shelf.old ≤ H.faults shelf.new }
        ensures top_faulted { 0 < self.top.parts.used_faults → Rose (H.faults shelf.old) (H.faults shelf.new) }
        ensures lower_faulted { IfSome self.lower (λ lower. 0 < lower.key.parts.used_faults
            → Rose (H.faults shelf.old) (H.faults shelf.new)) }
    {
        let Hss { dir, top, lower } = self;
        put_lower(shelf, lower);
        put_key(shelf, dir.as_str(), top);
    }
}
