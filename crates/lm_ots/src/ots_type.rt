// The four types and their parameters.

ghost use Rattle.std.specs.Prelude.{◌≡◌, ◌↔◌, Some};
ghost use Rattle.lm_ots.specs.OtsKind.{type_word, width, chain_count, checksum_shift, greatest_digit, signature_length};
ghost use Rattle.lm_ots.specs.declared.ots_type.OtsType.{OtsType};

/// An LM-OTS type with SHA-256 (RFC 8554, section 4.1), named by the bits of a digit: more bits
/// make signatures shorter and chains longer.
#[derive(Clone, Copy, Debug)]
pub enum OtsType {
    /// `LMOTS_SHA256_N32_W1`
    W1,
    /// `LMOTS_SHA256_N32_W2`
    W2,
    /// `LMOTS_SHA256_N32_W4`
    W4,
    /// `LMOTS_SHA256_N32_W8`
    W8,
}

impl OtsType {
    /// The type of this number, or `None` where none of the four has it.
    pub fn from_type_word(word: u32) -> Option<OtsType>
        ensures { (kind : OtsType) → (result ≡ Some kind) ↔ (word ≡ type_word kind) }
    {
        match word {
            1 => Some(OtsType::W1),
            2 => Some(OtsType::W2),
            3 => Some(OtsType::W4),
            4 => Some(OtsType::W8),
            _ => None,
        }
    }

    /// The type's number, which signatures and keys begin with.
    pub fn type_word(self) -> u32
        ensures { result ≡ type_word self }
    {
        match self {
            OtsType::W1 => 1,
            OtsType::W2 => 2,
            OtsType::W4 => 3,
            OtsType::W8 => 4,
        }
    }

    /// w, the bits of a digit.
    pub fn width(self) -> u8
        ensures { result ≡ width self }
    {
        match self {
            OtsType::W1 => 1,
            OtsType::W2 => 2,
            OtsType::W4 => 4,
            OtsType::W8 => 8,
        }
    }

    /// p, the chains of a key.
    pub fn chain_count(self) -> u16
        ensures { result ≡ chain_count self }
    {
        match self {
            OtsType::W1 => 265,
            OtsType::W2 => 133,
            OtsType::W4 => 67,
            OtsType::W8 => 34,
        }
    }

    /// ls, the bits by which the checksum is shifted to the left.
    pub fn checksum_shift(self) -> u8
        ensures { result ≡ checksum_shift self }
    {
        match self {
            OtsType::W1 => 7,
            OtsType::W2 => 6,
            OtsType::W4 => 4,
            OtsType::W8 => 0,
        }
    }

    /// The greatest digit, which is the number of a chain's steps.
    pub fn greatest_digit(self) -> u8
        ensures { result ≡ greatest_digit self }
    {
        match self {
            OtsType::W1 => 1,
            OtsType::W2 => 3,
            OtsType::W4 => 15,
            OtsType::W8 => 255,
        }
    }

    /// The bytes of a signature.
    pub fn signature_length(self) -> usize
        ensures { result ≡ signature_length self }
    {
        match self {
            OtsType::W1 => 8516,
            OtsType::W2 => 4292,
            OtsType::W4 => 2180,
            OtsType::W8 => 1124,
        }
    }
}
