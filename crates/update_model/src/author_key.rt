ghost use Rattle.std.specs.Prelude.{◌≡◌};
ghost use Rattle.update_model.specs.Form.{IsKnownKey, signature_length};

/// An author's public key: an LMS public key (RFC 8554, section 5.3).
#[derive(Clone, Copy, PartialEq, Eq, PartialOrd, Ord)]
pub struct AuthorKey {
    /// The LMS type word: 5, 6 or 7, for trees of height 5, 10 or 15.
    pub lms: u32,
    /// The LM-OTS type word: 1 to 4, for chains of 1, 2, 4 or 8 bits a digit.
    pub ots: u32,
    /// The 16 bytes that tell this key's digests from those of others.
    pub ident: [u8; 16],
    /// The root of the tree.
    pub root: [u8; 32],
}

/// How many bytes a signature by this key has (RFC 8554, section 5.4): the leaf number and the LMS type, four
/// bytes each, the LM-OTS signature, and one digest for each level of the tree.
pub fn signature_len(key: &AuthorKey) -> u32
    requires { IsKnownKey key.now }
    ensures { result ≡ signature_length key.now }
{
    let one_time = match key.ots {
        1 => 8516,
        2 => 4292,
        3 => 2180,
        _ => 1124,
    };
    let height = match key.lms {
        5 => 5,
        6 => 10,
        _ => 15,
    };
    8 + one_time + 32 * height
}
