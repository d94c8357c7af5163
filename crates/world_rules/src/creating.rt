//! A replica that is made over empty disks.

ghost use Rattle.std.specs.Prelude.{◌≡◌, IfOk, IfErr, OnOk, [], length};
ghost use Rattle.key_index.specs.Creating.{CreatesKey, drawn_key};
ghost use Rattle.key_index.specs.Opening.{Holds};
ghost use Rattle.lms_tree.specs.SecretKey.{SecretData};
ghost use Rattle.numbered_words.specs.Numbered.{state_after, word_steps};
ghost use Rattle.rand_core.specs.Steps.{stream_of};
ghost use Rattle.row_check.specs.Checksum.{is_luhn};
ghost use Rattle.world_rules.specs.Happens.{IsNewSite};
ghost use Rattle.world_rules.specs.Creating.{IsSiteCause, cause_of};
ghost use Rattle.world_rules.specs.Sites.{fresh_parts};

use crate::fault::SiteFault;
use crate::heads::no_heads;
use crate::site::Site;
use bec_disk::MemDisk;
use key_index::KeyStore;
use lms_tree::{KeyTypes, OneThread};
use numbered_words::Words;
use replica::{CreateKind, create};
use row_check::{Luhn, Native};
use std::alloc::{AllocError, Global};

impl Site {
    /// A replica whose node has this id, whose store is of this schema and has no updates, and whose key is what the
    /// next six words draw. It remembers nothing of the replicas of its world, of which there are `count`.
    ///
    /// What an empty disk in memory answers, and want of memory, are the only causes of [`SiteFault::Memory`].
    pub fn create(
        alloc: Global,
        node: [u8; 32],
        text: &[u8],
        types: KeyTypes,
        words: &mut Words,
        count: usize,
    ) -> Result<Site, SiteFault>
        ensures new { IfOk result (λ site. IsNewSite is_luhn site.store.history.schema site) }
        ensures text { IfOk result (λ site. site.store.history.schema.text ≡ text.now) }
        ensures count { IfOk result (λ site. length site.remembered ≡ count) }
        ensures key { IfOk result (λ site. site.key.secret ≡ drawn_key types.lms types.ots
            (stream_of word_steps words.old)) }
        ensures drawn { OnOk result (stream_of word_steps words.new ≡ stream_of word_steps (state_after 6 words.old)) }
        ensures refused { IfErr result (λ why. IsSiteCause is_luhn text.now why) }
    {
        let Ok(remembered) = no_heads(alloc, count) else {
            return Err(SiteFault::Memory);
        };
        let Ok(key) = draw_key(alloc, types, words) else {
            return Err(SiteFault::Memory);
        };
        let mut schema = MemDisk::new(alloc);
        let updates = MemDisk::new(alloc);
        match create(alloc, &mut schema, updates, node, text, Native::new(Luhn)) {
            Ok(store) => Ok(Site {
                alloc,
                schema,
                store,
                key,
                is_down: false,
                remembered,
            }),
            Err(fault) => Err(fault_of(fault.why)),
        }
    }
}

/// The key that the next six words draw, over empty disks.
fn draw_key(
    alloc: Global,
    types: KeyTypes,
    words: &mut Words,
) -> Result<KeyStore<MemDisk>, AllocError>
    ensures creates { IfOk result (λ key. (secret : SecretData) × CreatesKey secret (fresh_parts [] []) key) }
    ensures holds { IfOk result (λ key. Holds key.parts.key.seen key.secret) }
    ensures secret { IfOk result (λ key. key.secret ≡ drawn_key types.lms types.ots (stream_of word_steps words.old)) }
    ensures drawn { OnOk result (stream_of word_steps words.new ≡ stream_of word_steps (state_after 6 words.old)) }
{
    let key = MemDisk::new(alloc);
    let used = MemDisk::new(alloc);
    match KeyStore::create(&OneThread, alloc, key, used, types, words) {
        Ok(key) => Ok(key),
        Err(_) => Err(AllocError),
    }
}

/// Why no replica is created, by why no store is. Over an empty disk there is no store.
fn fault_of(why: CreateKind) -> SiteFault
    ensures { result ≡ cause_of why }
{
    match why {
        CreateKind::BadSchema(_) => SiteFault::BadSchema,
        CreateKind::NotConfluent { .. } => SiteFault::NotConfluent,
        _ => SiteFault::Memory,
    }
}
