//! Two records, one behind the other.

ghost use Rattle.std.specs.Prelude.{◌≡◌, MatchOption, length};
ghost use Rattle.std.specs.Int.{w32, to_be_bytes};
ghost use Rattle.audit_text.specs.Certificates.{AreNotTwo, AreTwo, HasNoRecord, HoldsRecord};

use byteorder::{BigEndian, ByteOrder};

/// The two records that the bytes are, or `None` where they are not two records and nothing else.
pub fn two_records(bytes: &[u8]) -> Option<(&[u8], &[u8])>
    ensures { MatchOption result (AreNotTwo bytes.now) (λ pair. AreTwo bytes.now pair.0.now pair.1.now) }
{
    let (first, behind) = first_record(bytes)?;
    let (second, rest) = first_record(behind)?;
    if rest.is_empty() {
        Some((first, second))
    } else {
        None
    }
}

/// The record that the bytes begin with, and what stands behind it, or `None` where they begin with none.
fn first_record(bytes: &[u8]) -> Option<(&[u8], &[u8])>
    ensures { MatchOption result (HasNoRecord bytes.now) (λ parts. HoldsRecord bytes.now parts.0.now parts.1.now) }
{
    let (prefix, behind) = bytes.split_at_checked(4)?;
    let size = length_of(prefix) as usize;
    behind.split_at_checked(size)
}

/// The number that four bytes spell, the high byte first.
fn length_of(prefix: &[u8]) -> u32
    requires { length prefix.now ≡ 4 }
    ensures { to_be_bytes w32 result ≡ prefix.now }
{
    BigEndian::read_u32(prefix)
}
