// The digits of a digest and its checksum (RFC 8554, section 4.4).

ghost use Rattle.std.specs.Prelude.{◌≡◌, ◌+◌, ◌*◌, ◌<◌, ◌≤◌, length};
ghost use Rattle.lm_ots.specs.OtsKind.{width, greatest_digit};
ghost use Rattle.lm_ots.specs.Digits.{coef, checksum, checked_digest};

use crate::ots_type::OtsType;
use byteorder::{BigEndian, ByteOrder};

/// The `i`-th digit of the bytes (RFC 8554, section 3.1.3).
pub fn digit(kind: OtsType, bytes: &[u8], i: u16) -> u8
    requires { i * width kind + width kind ≤ 8 * length bytes.now }
    ensures value { result ≡ coef bytes.now i (width kind) }
    ensures bound { result ≤ greatest_digit kind }
{
    let width = kind.width();
    let byte = bytes[usize::from(i) * usize::from(width) / 8];
    let place = (i % u16::from(8 / width)) as u8;
    let above = 8 - (width * place + width);
    (byte >> above) & kind.greatest_digit()
}

fn checksum(kind: OtsType, digest: &[u8; 32]) -> u16
    ensures { result ≡ checksum kind digest.now }
{
    let greatest = u16::from(kind.greatest_digit());
    let mut sum = 0;
    for i in 0..256 / u16::from(kind.width()) {
        sum += greatest - u16::from(digit(kind, digest, i));
    }
    sum << kind.checksum_shift()
}

/// The digest followed by its checksum, from which the digits of a signature are read.
pub fn checked_digest(kind: OtsType, digest: &[u8; 32]) -> [u8; 34]
    ensures { result ≡ checked_digest kind digest.now }
{
    let mut checked = [0; 34];
    checked[..32].copy_from_slice(digest);
    BigEndian::write_u16(&mut checked[32..], checksum(kind, digest));
    checked
}
