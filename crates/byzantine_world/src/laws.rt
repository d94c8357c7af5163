//! The law of audits of worlds. Its function does no work: its contract is a theorem over every list of events.

ghost use Rattle.std.specs.Prelude.{◌≡◌, ◌≢◌, ℕ, List, Contains, Some};
ghost use Rattle.key_audit.specs.Entries.{AreFound};
ghost use Rattle.key_audit.specs.declared.doubled.Doubled.{Doubled as Entry};
ghost use Rattle.lms_tree.specs.SecretKey.{public_key};
ghost use Rattle.schema.specs.Data.{Meaning, SchemaData};
ghost use Rattle.world_rules.specs.Happens.{IsReached};
ghost use Rattle.world_rules.specs.Laws.{NoForgedIndex};
ghost use Rattle.world_rules.specs.Worlds.{SiteData, WorldData, held_by, site_at};

use world_rules::correct_keys_are_never_doubled;

/// Unless a signature was forged: whatever happened to a world, an audit of what a correct replica holds finds no entry
/// under the key of a correct replica.
pub fn no_correct_key_is_doubled()
    ensures { (ask : Meaning) (schema : SchemaData) (w : WorldData) (q r : ℕ) (site other : SiteData)
        (entries : List Entry) (entry : Entry)
        → IsReached ask schema w → NoForgedIndex w → site_at w q ≡ Some site → AreFound (held_by site) entries
        → Contains entries entry
        → site_at w r ≡ Some other → entry.key ≢ public_key other.key.secret }
{
    correct_keys_are_never_doubled();
}
