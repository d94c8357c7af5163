//! How a world begins: its replicas, and no sessions.

ghost use Rattle.std.specs.Prelude.{◌≡◌, ◌≤◌, ℕ, All, IfOk, IfErr, length};
ghost use Rattle.confluence_test.specs.Taking.{TakesSchema};
ghost use Rattle.row_check.specs.Checksum.{is_luhn};
ghost use Rattle.schema.specs.Data.{SchemaData};
ghost use Rattle.byzantine_world.specs.Begun.{AreNone, IsNewOf, IsWorldCause, refusal_fault};
ghost use Rattle.world_rules.specs.Drawn.{HaveDrawnKeys};

use crate::talk::Talk;
use crate::world_fault::WorldFault;
use confluence_test::{SchemaRefusal, take_schema};
use lms_tree::KeyTypes;
use numbered_words::Words;
use row_check::{Luhn, Native};
use std::alloc::{AllocError, Global};
use world_rules::Site;

/// The number of sessions that a world may have.
const SESSIONS: usize = 256;

/// Refuses a text that declares no schema whose invariants all survive merging.
pub(crate) fn check_text(alloc: Global, text: &[u8]) -> Result<(), WorldFault>
    ensures taken { IfOk result (λ _. (schema : SchemaData) × TakesSchema is_luhn text.now schema) }
    ensures refused { IfErr result (λ why. (count : ℕ) → IsWorldCause is_luhn text.now count why) }
{
    let native: Native<Luhn, Luhn> = Native::new(Luhn);
    match take_schema(alloc, text, &native) {
        Ok(_) => Ok(()),
        Err(refusal) => Err(fault_of(&refusal)),
    }
}

/// Why there is no world, by why a text is refused.
fn fault_of(refusal: &SchemaRefusal) -> WorldFault
    ensures { result ≡ refusal_fault refusal.now }
{
    match refusal {
        SchemaRefusal::Schema(_) => WorldFault::BadSchema,
        SchemaRefusal::NotConfluent { .. } => WorldFault::NotConfluent,
        SchemaRefusal::Memory => WorldFault::Memory,
    }
}

/// The id of the node of the replica with this number.
fn node_of(replica: u8) -> [u8; 32] {
    let mut node = [0; 32];
    node[31] = replica;
    node
}

/// So many replicas of this schema, each with a key that is drawn from the words, in their order.
pub(crate) fn sites_of(
    alloc: Global,
    text: &[u8],
    count: u32,
    types: KeyTypes,
    words: &mut Words,
) -> Result<Vec<Site>, WorldFault>
    requires { count ≤ 16 }
    ensures new { IfOk result (λ sites. All (IsNewOf text.now count) sites.items) }
    ensures many { IfOk result (λ sites. length sites.items ≡ count) }
    ensures keys { IfOk result (λ sites. HaveDrawnKeys types words.old sites.items) }
    ensures refused { IfErr result (λ why. IsWorldCause is_luhn text.now count why) }
{
    let mut sites = Vec::with_capacity(alloc, count as usize)?;
    'sites: for replica in 0..count {
        let node = node_of(replica as u8);
        let site = Site::create(alloc, node, text, types, words, count as usize)?;
        sites.push_reserved(site);
    }
    Ok(sites)
}

/// No session at any number.
pub(crate) fn no_talks(alloc: Global) -> Result<Vec<Option<Talk>>, AllocError>
    ensures none { IfOk result (λ talks. AreNone talks.items) }
    ensures many { IfOk result (λ talks. length talks.items ≡ SESSIONS) }
{
    let mut talks = Vec::with_capacity(alloc, SESSIONS)?;
    'talks: for _ in 0..SESSIONS {
        talks.push_reserved(None);
    }
    Ok(talks)
}
