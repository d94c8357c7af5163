use crate::LineList;
use lm_ots::OtsType;
use lms_tree::LmsType;
use update_model::ByteList;

/// A script: a world, and what is to happen to it.
#[derive(Drop)]
pub struct Script {
    /// The text of the schema, which is all that stands before the line `WORLD`.
    pub schema: ByteList,
    /// The replicas, 1 to [`MAX_REPLICAS`](crate::MAX_REPLICAS).
    pub replicas: u32,
    /// The trees of the replicas' keys.
    pub lms: LmsType,
    /// Their one-time signatures.
    pub ots: OtsType,
    /// The number that keys and random words come from.
    pub number: u64,
    /// What the lines say.
    pub lines: LineList,
}
