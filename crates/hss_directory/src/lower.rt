//! Lower keys.

ghost use Rattle.std.specs.Prelude.{◌≡◌, ◌++◌, IfOk, IsTrue, MatchOption, Some, codes, string_bytes};
ghost use Rattle.std.specs.Fmt.{decimal};
ghost use Rattle.lm_ots.specs.OtsKind as ots_kind;
ghost use Rattle.lm_ots.specs.declared.ots_type.OtsType.{OtsType};
ghost use Rattle.lms_tree.specs.LmsKind.{type_word};
ghost use Rattle.lms_tree.specs.declared.lms_type.LmsType.{LmsType};
ghost use Rattle.hss_directory.specs.Values.{low_dir};

use bec_disk::Disk;
use key_index::KeyStore;
use lm_ots::OtsType;
use lms_tree::{KeyTypes, LmsType};
use std::alloc::{AllocError, Global};
use std::marker::Model;
use update_model::AuthorKey;

/// A lower key, with the top key's signature of it.
#[derive(Drop)]
pub struct Lower<D: Disk> {
    /// Its directory.
    pub(crate) dir: String,
    /// The top index that signed it.
    pub(crate) index: u32,
    pub(crate) key: KeyStore<D>,
    pub(crate) top_sig: Vec<u8>,
}

impl<D: Disk> Model for Lower<D> {
    ghost use Rattle.std.specs.Prelude.{string_bytes};
    ghost use Rattle.hss_directory.specs.Values.{LowerState};

    ghost Value = { LowerState };

    ghost view = { λ lower. record {
      dir = string_bytes lower.dir;
      index = lower.index;
      key = lower.key;
      top_sig = lower.top_sig.items;
    } };
}

/// The name of the directory of the lower key that this top index signs.
#[tactic(auto, unfolding(crate::specs::Values::low_dir))]
pub(crate) fn low_dir(alloc: Global, dir: &str, index: u32) -> Result<String, AllocError>
    ensures { IfOk result (λ name. string_bytes name ≡ low_dir dir.now index) }
{
    format!(in alloc; "{dir}.{index}")
}

/// The types of a key of known types.
pub(crate) fn types_of(key: &AuthorKey) -> KeyTypes
    ensures lms { (lms : LmsType) → key.now.lms ≡ type_word lms → result.lms ≡ lms }
    ensures ots { (ots : OtsType) → key.now.ots ≡ ots_kind.type_word ots → result.ots ≡ ots }
{
    let lms = LmsType::from_type_word(key.lms).unwrap_or(LmsType::H10);
    let ots = OtsType::from_type_word(key.ots).unwrap_or(OtsType::W4);
    KeyTypes { lms, ots }
}
