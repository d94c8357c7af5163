// The three types and their parameters.

ghost use Rattle.std.specs.Prelude.{◌≡◌, ◌↔◌, Some};
ghost use Rattle.lm_ots.specs.declared.ots_type.OtsType.{OtsType};
ghost use Rattle.lms_tree.specs.LmsKind.{type_word, height, leaf_count, signature_length};
ghost use Rattle.lms_tree.specs.declared.lms_type.LmsType.{LmsType};

use lm_ots::OtsType;

/// An LMS type with SHA-256 (RFC 8554, section 5.1), named by the height of its trees.
#[derive(Clone, Copy, Debug)]
pub enum LmsType {
    /// `LMS_SHA256_M32_H5`: 32 signatures
    H5,
    /// `LMS_SHA256_M32_H10`: 1,024 signatures
    H10,
    /// `LMS_SHA256_M32_H15`: 32,768 signatures
    H15,
}

impl LmsType {
    /// The type of this number, or `None` where none of the three has it.
    pub fn from_type_word(word: u32) -> Option<LmsType>
        ensures { (lms : LmsType) → (result ≡ Some lms) ↔ (word ≡ type_word lms) }
    {
        match word {
            5 => Some(LmsType::H5),
            6 => Some(LmsType::H10),
            7 => Some(LmsType::H15),
            _ => None,
        }
    }

    /// The type's number, which signatures and keys have.
    pub fn type_word(self) -> u32
        ensures { result ≡ type_word self }
    {
        match self {
            LmsType::H5 => 5,
            LmsType::H10 => 6,
            LmsType::H15 => 7,
        }
    }

    /// h, the levels of the tree above its leaves.
    pub fn height(self) -> u8
        ensures { result ≡ height self }
    {
        match self {
            LmsType::H5 => 5,
            LmsType::H10 => 10,
            LmsType::H15 => 15,
        }
    }

    /// The leaves, each of which signs once.
    pub fn leaf_count(self) -> u32
        ensures { result ≡ leaf_count self }
    {
        match self {
            LmsType::H5 => 32,
            LmsType::H10 => 1024,
            LmsType::H15 => 32768,
        }
    }

    /// The bytes of a signature whose one-time signatures have this type.
    pub fn signature_length(self, ots: OtsType) -> usize
        ensures { result ≡ signature_length self ots }
    {
        8 + ots.signature_length() + 32 * usize::from(self.height())
    }
}
