//! Laws of worlds. Each function does no work: its contract is a theorem over every list of events.

ghost use Rattle.std.specs.Prelude.{◌≡◌, ℕ, List, Contains, Some, map, slice_get};
ghost use Rattle.std.specs.List.{IsDistinct};
ghost use Rattle.bec_disk.specs.Disk.{EveryImage};
ghost use Rattle.key_index.specs.Used.{IsUsed};
ghost use Rattle.lms_tree.specs.SecretKey.{public_key};
ghost use Rattle.lms_tree.specs.Signature.{leaf_number};
ghost use Rattle.lms_tree.specs.declared.seed.KeyTypes.{KeyTypes};
ghost use Rattle.schema.specs.Data.{Meaning, SchemaData};
ghost use Rattle.session_rules.specs.Laws.{NoCollision};
ghost use Rattle.table_model.specs.Visible.{rules_with};
ghost use Rattle.update_check.specs.Members.{AreMembers};
ghost use Rattle.update_codec.specs.Parts.{body_of, entry_of, signature_of};
ghost use Rattle.update_codec.specs.Spelling.{message};
ghost use Rattle.update_model.specs.declared.update_id.UpdateId.{UpdateId};
ghost use Rattle.update_model.specs.Graph.{AreHeads};
ghost use Rattle.world_rules.specs.declared.event.Event.{Event as EventData};
ghost use Rattle.world_rules.specs.declared.event.Stepped.{Stepped as SteppedData};
ghost use Rattle.world_rules.specs.Drawn.{HaveDrawnKeys};
ghost use Rattle.world_rules.specs.Happens.{Happens, IsNew, IsReached, Reaches};
ghost use Rattle.world_rules.specs.Laws.{HaveOneSet, HoldsInvariants, IsKeyOf, IsOfMake, IsSoundTalk, KeepsList};
ghost use Rattle.world_rules.specs.Laws.{LeavesThrough, NoForgedIndex, NoForgery, same_index};
ghost use Rattle.world_rules.specs.Meetings.{TwoEnds};
ghost use Rattle.world_rules.specs.Worlds.{Both, SignedData, SiteData, WorldData, held_by, session_at, site_at};

use schema_text::{declared_is_sound, one_schema};

/// Whatever happened to a world, each replica's list is closed. Whatever happens next, it begins with what it was and
/// is closed, and whatever a crash leaves at a moment of the event begins with the records of what it was, and stands
/// for a list that begins with it.
pub fn lists_only_grow()
    ensures closed { (ask : Meaning) (schema : SchemaData) (w : WorldData) (r : ℕ) (site : SiteData)
        → IsReached ask schema w
        → site_at w r ≡ Some site → AreMembers schema.rule (held_by site) }
    ensures grows { (ask : Meaning) (schema : SchemaData) (w next : WorldData) (event : EventData)
        (answer : SteppedData) (r : ℕ) (site : SiteData)
        → IsReached ask schema w → Happens ask w event answer next → site_at w r ≡ Some site
        → (new : SiteData) × (site_at next r ≡ Some new) × KeepsList schema site new }
{
    one_schema();
    declared_is_sound();
}

/// Two replicas with equal heads have equal sets and equal tables, where no two updates of their lists share an id.
pub fn equal_heads_mean_equal_tables()
    ensures { (ask : Meaning) (schema : SchemaData) (w : WorldData) (r q : ℕ) (a b : SiteData) (heads : List UpdateId)
        → IsReached ask schema w
        → site_at w r ≡ Some a → site_at w q ≡ Some b → AreHeads (map entry_of (held_by a)) heads
        → AreHeads (map entry_of (held_by b)) heads
        → NoCollision (map entry_of (held_by a)) (map entry_of (held_by b))
        → HaveOneSet (rules_with ask schema.tables) (held_by a) (held_by b) }
{
    one_schema();
    declared_is_sound();
}

/// Every invariant of the schema holds in the tables of every replica.
pub fn invariants_always_hold()
    ensures { (ask : Meaning) (schema : SchemaData) (w : WorldData) (r : ℕ) (site : SiteData) → IsReached ask schema w
        → site_at w r ≡ Some site → HoldsInvariants (rules_with ask schema.tables) (held_by site) }
{
    one_schema();
    declared_is_sound();
}

/// Unless a signature was forged: each update that a correct replica holds and that a correct replica's key signed has
/// a message that a Make of a replica with this key signed. It names every head which that replica had then; and where
/// no two updates share an id, all that it held then are ancestors of the update. Where no other replica has the key,
/// as where the world's number drew all keys, it was a Make of that very replica.
pub fn members_were_made()
    ensures made { (ask : Meaning) (schema : SchemaData) (w : WorldData) (q r : ℕ) (site : SiteData) (update : List ℕ)
        → IsReached ask schema w → NoForgery w
        → site_at w q ≡ Some site → Contains (held_by site) update → IsKeyOf w r update → (by : ℕ) × IsKeyOf w by update
        × IsOfMake w by (held_by site) update }
    ensures by_itself { (ask : Meaning) (schema : SchemaData) (w : WorldData) (q r : ℕ) (site : SiteData)
        (update : List ℕ) → IsReached ask schema w → NoForgery w
        → site_at w q ≡ Some site → Contains (held_by site) update → IsKeyOf w r update
        → ((other : ℕ) → IsKeyOf w other update → other ≡ r) → IsOfMake w r (held_by site) update }
    ensures by_own_key { (ask : Meaning) (schema : SchemaData) (w : WorldData) (types : KeyTypes) (number q r : ℕ)
        (site : SiteData) (update : List ℕ) → IsReached ask schema w → HaveDrawnKeys types number w.sites → NoForgery w
        → site_at w q ≡ Some site → Contains (held_by site) update → IsKeyOf w r update
        → IsOfMake w r (held_by site) update }
{
    one_schema();
    declared_is_sound();
}

/// Of each session of two correct replicas, whatever other sessions add meanwhile: neither end finds a fault in the
/// other, the turns are within the bound of the start sets, and an end that is done holds the other's start set, where
/// no two updates of the two lists share an id.
pub fn sessions_are_sound()
    ensures { (ask : Meaning) (schema : SchemaData) (w : WorldData) (s : ℕ) (ends : TwoEnds) (a b : SiteData)
        → IsReached ask schema w
        → session_at w s ≡ Some (Both ends) → site_at w ends.first ≡ Some a → site_at w ends.second ≡ Some b
        → IsSoundTalk ends (held_by a) (held_by b) }
{
    one_schema();
    declared_is_sound();
}

/// Whatever happens to a world whose number drew its replicas' keys, each replica has the key that was drawn for its
/// place, and no two have one public key, nor one SEED.
pub fn each_replica_has_its_own_key()
    ensures kept { (ask : Meaning) (schema : SchemaData) (first w : WorldData) (types : KeyTypes) (number : ℕ)
        → IsNew ask schema first → Reaches ask first w → HaveDrawnKeys types number first.sites
        → HaveDrawnKeys types number w.sites }
    ensures own { (ask : Meaning) (schema : SchemaData) (w : WorldData) (types : KeyTypes) (number r q : ℕ)
        (a b : SiteData) → IsReached ask schema w → HaveDrawnKeys types number w.sites
        → site_at w r ≡ Some a → site_at w q ≡ Some b → public_key a.key.secret ≡ public_key b.key.secret → r ≡ q }
    ensures seed { (ask : Meaning) (schema : SchemaData) (w : WorldData) (types : KeyTypes) (number r q : ℕ)
        (a b : SiteData) → IsReached ask schema w → HaveDrawnKeys types number w.sites
        → site_at w r ≡ Some a → site_at w q ≡ Some b → a.key.secret.start ≡ b.key.secret.start → r ≡ q }
{
    one_schema();
    declared_is_sound();
}

/// With each index of each replica's key at most one message is signed, and from then on whatever a crash leaves has
/// the index used. Where the world's number drew all keys, with each index of each public key at most one message is
/// signed, by whichever replica.
pub fn one_index_one_message()
    ensures once { (ask : Meaning) (schema : SchemaData) (w : WorldData) → IsReached ask schema w
        → IsDistinct same_index w.signed }
    ensures used { (ask : Meaning) (schema : SchemaData) (w : WorldData) (s : SignedData) → IsReached ask schema w
        → Contains w.signed s
        → (site : SiteData) × (site_at w s.replica ≡ Some site) × EveryImage site.key.parts.used.now (IsUsed s.index) }
    ensures any_moment { (ask : Meaning) (schema : SchemaData) (w next : WorldData) (event : EventData)
        (answer : SteppedData) (s : SignedData) (site : SiteData)
        → IsReached ask schema w → Happens ask w event answer next → Contains w.signed s
        → site_at w s.replica ≡ Some site
        → (new : SiteData) × (site_at next s.replica ≡ Some new) × LeavesThrough site.key.parts.used new.key.parts.used
        (IsUsed s.index) }
    ensures by_key { (ask : Meaning) (schema : SchemaData) (w : WorldData) (types : KeyTypes) (number i j : ℕ)
        (a b : SignedData) → IsReached ask schema w → HaveDrawnKeys types number w.sites
        → slice_get w.signed i ≡ Some a → slice_get w.signed j ≡ Some b → a.body.author ≡ b.body.author
        → a.index ≡ b.index → i ≡ j }
{
    one_schema();
    declared_is_sound();
}

/// Unless a signature was forged: of two updates that a correct replica holds, signed by a correct replica's key under
/// one index, the messages are the same. So a key that signed two messages under one index is no correct replica's.
pub fn correct_keys_are_never_doubled()
    ensures { (ask : Meaning) (schema : SchemaData) (w : WorldData) (q r : ℕ) (site : SiteData) (first second : List ℕ)
        → IsReached ask schema w → NoForgedIndex w
        → site_at w q ≡ Some site → Contains (held_by site) first → Contains (held_by site) second → IsKeyOf w r first
        → IsKeyOf w r second
        → leaf_number (signature_of first) ≡ leaf_number (signature_of second)
        → message (body_of first) ≡ message (body_of second) }
{
    one_schema();
    declared_is_sound();
}
