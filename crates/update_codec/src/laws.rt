//! Laws of the spelling. Each function does nothing: its contract is a theorem for callers to cite.

ghost use Rattle.std.specs.Prelude.{◌≡◌, ◌↔◌, ◌+◌, ◌≤◌, ℕ, List, [], ◌++◌, length, slice_index};
ghost use Rattle.update_model.specs.Block.{AreBytes};
ghost use Rattle.update_model.specs.Form.{UpdateData};
ghost use Rattle.update_codec.specs.declared.codec_fault.CodecKind.{CodecKind};
ghost use Rattle.update_codec.specs.Faults.{FirstFault};
ghost use Rattle.update_codec.specs.Parts.{database_of, author_of, preds_of, ops_of, note_of, signature_of, update_of};
ghost use Rattle.update_codec.specs.FirstVersion.{SpellsFirst};
ghost use Rattle.update_codec.specs.Spelling.{Spells, IsSpelling};

/// An update has one spelling.
pub fn one_spelling()
    ensures { (bytes other : List ℕ) (update : UpdateData) → Spells bytes update → Spells other update → bytes ≡ other }
{}

/// Bytes spell one update at most.
pub fn one_update()
    ensures { (bytes : List ℕ) (update other : UpdateData) → Spells bytes update → Spells bytes other → update ≡ other }
{}

/// No spelling is a proper prefix of another.
pub fn no_prefix()
    ensures { (bytes more : List ℕ) (update other : UpdateData)
        → Spells bytes update → Spells (bytes ++ more) other → more ≡ [] }
{}

/// Bytes have one first fault at most.
pub fn one_fault()
    ensures { (bytes : List ℕ) (kind other : CodecKind) (place elsewhere : ℕ)
        → FirstFault bytes kind place → FirstFault bytes other elsewhere → (kind ≡ other) × (place ≡ elsewhere) }
{}

/// Bytes that have a first fault spell no update.
pub fn no_fault()
    ensures { (bytes : List ℕ) (kind : CodecKind) (place : ℕ) (update : UpdateData)
        → FirstFault bytes kind place → Spells bytes update → ⊥ }
{}

/// Bytes that spell no update have a first fault.
pub fn some_fault()
    ensures { (bytes : List ℕ) → AreBytes bytes → (IsSpelling bytes → ⊥)
        → (kind : CodecKind) × (place : ℕ) × FirstFault bytes kind place }
{}

/// The parts of an update stand at their places in its spelling.
pub fn fields_of_spelling()
    ensures database { (bytes : List ℕ) (update : UpdateData) → Spells bytes update
        → database_of bytes ≡ update.body.database }
    ensures author { (bytes : List ℕ) (update : UpdateData) → Spells bytes update
        → author_of bytes ≡ update.body.author }
    ensures preds { (bytes : List ℕ) (update : UpdateData) → Spells bytes update → preds_of bytes ≡ update.body.preds }
    ensures ops { (bytes : List ℕ) (update : UpdateData) → Spells bytes update → ops_of bytes ≡ update.body.ops }
    ensures note { (bytes : List ℕ) (update : UpdateData) → Spells bytes update → note_of bytes ≡ update.body.note }
    ensures signature { (bytes : List ℕ) (update : UpdateData) → Spells bytes update
        → signature_of bytes ≡ update.signature }
    ensures update { (bytes : List ℕ) (update : UpdateData) → Spells bytes update → update_of bytes ≡ update }
{}

/// A spelling spells the update of its parts.
pub fn spells_its_parts()
    ensures { (bytes : List ℕ) → IsSpelling bytes → Spells bytes (update_of bytes) }
{}

/// What begins with 1 spells what it spelled when version 1 was all there was, and nothing else.
pub fn first_version_stays()
    ensures { (bytes : List ℕ) (update : UpdateData) → (Spells bytes update × (slice_index bytes 0 ≡ 1))
        ↔ SpellsFirst bytes update }
{}
