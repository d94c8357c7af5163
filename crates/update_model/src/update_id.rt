/// The name of an update: the SHA-256 digest (FIPS 180-4) of its whole spelling, signature included.
///
/// Ids order by their bytes.
#[derive(Clone, Copy, Debug, PartialEq, Eq, PartialOrd, Ord)]
pub struct UpdateId(pub [u8; 32]);
