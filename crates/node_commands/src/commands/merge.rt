ghost use Rattle.std.specs.Prelude.{◌≡◌, ◌≢◌, ◌≤◌, IsTrue, IfOk, length};
ghost use Rattle.std.specs.List.Sorted.{IsStrictlySortedBy};
ghost use Rattle.bec_disk.specs.Shelf.{out};
ghost use Rattle.bec_disk.specs.declared.part.Part.TheVariants.{Schema, Updates, Peers as PeersPart};
ghost use Rattle.node_commands.specs.Merging.{MergesBeside, MergesOpen, MergesStores, start_of};
ghost use Rattle.outcomes.specs.OpenStores.{opened_store};
ghost use Rattle.outcomes.specs.Texts.{merged_text};
ghost use Rattle.session_rules.specs.declared.limits.TheConstants.{MAX_NEEDS};
ghost use Rattle.update_model.specs.Entry.{id_cmp};
ghost use Rattle.key_directory.specs.Parts.{IsHome, part_in};

use bec_disk::{Disk, Shelf};
use outcomes::Refusal;
use peer_memory::Peers;
use record_check::Verifier;
use replica::Replica;
use row_check::Luhn;
use schema_text::one_schema;
use session_rules::End;
use std::alloc::{AllocError, Global};
use store_directory::{Needs, close, each_stands, keep_peers, open, peers_of};
use sync_session::{PairEnd, PairStart, sync_pair};
use update_model::IdList;

/// Reconciles the stores of two directories, and answers the lines of what each gained and of the turns.
pub fn merge<V: Verifier, H: Shelf>(
    verifier: &V,
    alloc: Global,
    shelf: &mut H,
    first: &str,
    second: &str,
) -> Result<Vec<u8>, Refusal>
    requires home { IsTrue (H.state shelf.old).tells → IsHome (H.state shelf.old) }
    requires differ { first.now ≢ second.now }
    ensures { MergesStores first.now second.now (H.state shelf.old) (H.state shelf.new) (H.faults shelf.old)
        (H.faults shelf.new) result }
{
    one_schema();
    let mut one = open(verifier, alloc, shelf, first, Needs::Store)?;
    let outcome = merge_beside(
        verifier,
        alloc,
        shelf,
        first,
        second,
        &mut one.store.replica,
    );
    close(shelf, first, one);
    outcome
}

/// The same over the first store, which is open.
fn merge_beside<V: Verifier, H: Shelf>(
    verifier: &V,
    alloc: Global,
    shelf: &mut H,
    first: &str,
    second: &str,
    one: &mut Replica<H::D, Luhn, Luhn>,
) -> Result<Vec<u8>, Refusal>
    requires differ { first.now ≢ second.now }
    requires peers_in { IsTrue (H.state shelf.old).tells → part_in (H.state shelf.old) first.now PeersPart ≢ out }
    requires schema_in { IsTrue (H.state shelf.old).tells → part_in (H.state shelf.old) second.now Schema ≢ out }
    requires updates_in { IsTrue (H.state shelf.old).tells → part_in (H.state shelf.old) second.now Updates ≢ out }
    requires peers_in_second { IsTrue (H.state shelf.old).tells → part_in (H.state shelf.old) second.now PeersPart ≢ out }
    ensures { MergesBeside first.now second.now (H.state shelf.old) (H.state shelf.new) (H.faults shelf.old)
        (H.faults shelf.new) one.old one.new result }
{
    one_schema();
    each_stands(one);
    let mut other = open(verifier, alloc, shelf, second, Needs::Store)?;
    let outcome = merge_open(alloc, shelf, first, second, one, &mut other.store.replica);
    close(shelf, second, other);
    outcome
}

/// The same over both stores, which are open.
fn merge_open<H: Shelf>(
    alloc: Global,
    shelf: &mut H,
    first: &str,
    second: &str,
    one: &mut Replica<H::D, Luhn, Luhn>,
    other: &mut Replica<H::D, Luhn, Luhn>,
) -> Result<Vec<u8>, Refusal>
    requires differ { first.now ≢ second.now }
    requires peers_in { IsTrue (H.state shelf.old).tells → part_in (H.state shelf.old) first.now PeersPart ≢ out }
    requires peers_in_second { IsTrue (H.state shelf.old).tells → part_in (H.state shelf.old) second.now PeersPart ≢ out }
    ensures { MergesOpen first.now second.now (H.state shelf.old) (H.state shelf.new) (H.faults shelf.old)
        (H.faults shelf.new) one.old other.old one.new other.new result }
{
    each_stands(one);
    each_stands(other);
    let mut peers = peers_of(alloc, shelf, first)?;
    let mut peers_other = peers_of(alloc, shelf, second)?;
    let start = pair_start(alloc, one, other, &peers, &peers_other)?;
    let ended = sync_pair(alloc, one, other, start);
    each_stands(one);
    each_stands(other);
    let ended = ended?;
    match ended.a {
        End::Done => {
            keep_peers(
                alloc,
                shelf,
                first,
                peers,
                other.node(),
                &ended.remembered_a,
            )?;
            keep_peers(
                alloc,
                shelf,
                second,
                peers_other,
                one.node(),
                &ended.remembered_b,
            )?;
            Ok(merged_lines(alloc, &ended)?)
        }
        End::Peer(fault) => Err(Refusal::Peer(fault)),
        End::Full => Err(Refusal::Full),
        End::Store => Err(Refusal::StoreFault),
    }
}

/// How the session of two stores begins.
fn pair_start<D: Disk>(
    alloc: Global,
    one: &Replica<D, Luhn, Luhn>,
    other: &Replica<D, Luhn, Luhn>,
    peers: &Peers,
    peers_other: &Peers,
) -> Result<PairStart, AllocError>
    ensures is { IfOk result (λ start. start ≡ start_of (opened_store one.now) (opened_store other.now) peers.now
        peers_other.now) }
    ensures few_a { IfOk result (λ start. length start.old_a ≤ MAX_NEEDS) }
    ensures rising_a { IfOk result (λ start. IsStrictlySortedBy id_cmp start.old_a) }
    ensures few_b { IfOk result (λ start. length start.old_b ≤ MAX_NEEDS) }
    ensures rising_b { IfOk result (λ start. IsStrictlySortedBy id_cmp start.old_b) }
{
    let old_a = Vec::from_slice(alloc, peers.heads_of(&other.node()))?;
    let old_b = Vec::from_slice(alloc, peers_other.heads_of(&one.node()))?;
    Ok(PairStart {
        database_a: one.schema().rule().database,
        database_b: other.schema().rule().database,
        node_a: one.node(),
        node_b: other.node(),
        old_a: IdList::from_vec(old_a),
        old_b: IdList::from_vec(old_b),
    })
}

/// The lines for two stores that were merged.
fn merged_lines(alloc: Global, ended: &PairEnd) -> Result<Vec<u8>, AllocError>
    ensures { IfOk result (λ text. text.items ≡ merged_text ended.now.gained_a ended.now.gained_b ended.now.turns) }
{
    let PairEnd {
        gained_a,
        gained_b,
        turns,
        ..
    } = ended;
    Ok(format!(in alloc; "gained {gained_a} {gained_b}\nturns {turns}\n")?.into_bytes())
}
