ghost use Rattle.std.specs.Prelude.{◌≡◌};
ghost use Rattle.update_codec.specs.Parts.{id_of as digest_id};

use sha2::{Digest, Sha256};
use update_model::UpdateId;

/// The id of the update that these bytes spell: the SHA-256 digest of all of them (FIPS 180-4).
///
/// Any bytes have a digest; only those of a spelling name an update.
pub fn id_of(bytes: &[u8]) -> UpdateId
    ensures { result ≡ digest_id bytes.now }
{
    UpdateId(Sha256::digest(bytes))
}
