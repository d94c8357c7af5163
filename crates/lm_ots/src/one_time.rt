// Public values, signatures and candidates.

ghost use Rattle.std.specs.Prelude.{◌≡◌, ◌++◌, length};
ghost use Rattle.std.specs.Option.{SomeIff};
ghost use Rattle.std.specs.Int.{w32, to_be_bytes};
ghost use Rattle.sha2.specs.Hashers.{Holds256};
ghost use Rattle.lm_ots.specs.OtsKind.{chain_count, signature_length};
ghost use Rattle.lm_ots.specs.Joined.{joined};
ghost use Rattle.lm_ots.specs.OneTime.{IsOfType, candidate_value, end_from, leaf_value, message_digest, public_value};
ghost use Rattle.lm_ots.specs.OneTime.{signature_of};

use crate::chain_message::ChainMessage;
use crate::digits::{checked_digest, digit};
use crate::ots_type::OtsType;
use byteorder::{BigEndian, ByteOrder};
use sha2::{Digest, Sha256};

/// D_PBLC of RFC 8554, section 4.3: it sets the digests of public values apart.
const PUBLIC_TAG: [u8; 2] = [0x80, 0x80];

/// D_MESG of RFC 8554, section 4.5: it sets the digests of messages apart.
const MESSAGE_TAG: [u8; 2] = [0x81, 0x81];

// A hasher of I, q and a tag, which every digest of a leaf but those of its chains begins with.
fn tagged_hasher(ident: &[u8; 16], q: u32, tag: &[u8; 2]) -> Sha256
    ensures { Holds256 result (ident.now ++ to_be_bytes w32 q ++ tag.now) }
{
    let mut number = [0; 4];
    BigEndian::write_u32(&mut number, q);
    let mut hasher = Sha256::new();
    hasher.update(ident);
    hasher.update(&number);
    hasher.update(tag);
    hasher
}

fn message_digest(ident: &[u8; 16], q: u32, c: &[u8], msg: &[u8]) -> [u8; 32]
    ensures { result ≡ message_digest ident.now q c.now msg.now }
{
    let mut hasher = tagged_hasher(ident, q, &MESSAGE_TAG);
    hasher.update(c);
    hasher.update(msg);
    hasher.finalize()
}

/// The public value of leaf `q` under the identifier `ident`, from the seed `start` (RFC 8554,
/// section 4.3 and Appendix A).
pub fn public_of(kind: OtsType, ident: &[u8; 16], q: u32, start: &[u8; 32]) -> [u8; 32]
    ensures { result ≡ public_value kind ident.now q start.now }
{
    let greatest = kind.greatest_digit();
    let mut message = ChainMessage::new(ident, q);
    let mut hasher = tagged_hasher(ident, q, &PUBLIC_TAG);
    for i in 0..kind.chain_count() {
        message.start(i, start);
        message.run(0, greatest);
        hasher.update(message.value());
    }
    hasher.finalize()
}

/// Writes leaf `q`'s signature of the message `msg` over `out`, which has the signature's length
/// (RFC 8554, section 4.5). The seed is `start`, and `c` the 32 random bytes that the message is
/// digested behind. A leaf signs one message only: two signatures of one leaf give its key away.
pub fn sign(
    kind: OtsType,
    ident: &[u8; 16],
    q: u32,
    start: &[u8; 32],
    c: &[u8; 32],
    msg: &[u8],
    out: &mut [u8],
)
    requires { length out.old ≡ signature_length kind }
    ensures { out.new ≡ signature_of kind ident.now q start.now c.now msg.now }
{
    let digits = checked_digest(kind, &message_digest(ident, q, c, msg));
    let mut message = ChainMessage::new(ident, q);
    BigEndian::write_u32(out, kind.type_word());
    out[4..36].copy_from_slice(c);
    for i in 0..kind.chain_count() {
        message.start(i, start);
        message.run(0, digit(kind, &digits, i));
        let place = 36 + 32 * usize::from(i);
        out[place..place + 32].copy_from_slice(message.value());
    }
}

/// The public value that the signature leads to (RFC 8554, section 4.6, algorithm 4b), or `None`
/// where its length or its type's number is not that of `kind`. A signature of `msg` by leaf `q` is
/// valid where this is the leaf's public value.
pub fn candidate(
    kind: OtsType,
    ident: &[u8; 16],
    q: u32,
    msg: &[u8],
    sig: &[u8],
) -> Option<[u8; 32]>
    ensures { SomeIff result (IsOfType kind sig.now) (candidate_value kind ident.now q msg.now sig.now) }
{
    if sig.len() != kind.signature_length() || BigEndian::read_u32(sig) != kind.type_word() {
        return None;
    }
    let digits = checked_digest(kind, &message_digest(ident, q, &sig[4..36], msg));
    Some(value_at_ends(kind, ident, q, &digits, sig))
}

// The public value from the chain values of a signature, each taken to its chain's end.
fn value_at_ends(kind: OtsType, ident: &[u8; 16], q: u32, digits: &[u8; 34], sig: &[u8]) -> [u8; 32]
    requires { length sig.now ≡ signature_length kind }
    ensures { result ≡ leaf_value ident.now q (joined (λ i. end_from kind ident.now q digits.now sig.now i)
        (chain_count kind)) }
{
    let greatest = kind.greatest_digit();
    let mut message = ChainMessage::new(ident, q);
    let mut hasher = tagged_hasher(ident, q, &PUBLIC_TAG);
    for i in 0..kind.chain_count() {
        let place = 36 + 32 * usize::from(i);
        message.choose(i, &sig[place..place + 32]);
        message.run(digit(kind, digits, i), greatest);
        hasher.update(message.value());
    }
    hasher.finalize()
}
