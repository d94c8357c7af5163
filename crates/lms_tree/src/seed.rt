// What a key is made from.

use crate::lms_type::LmsType;
use lm_ots::OtsType;
use std::marker::Model;

/// Of which types a key is.
#[derive(Clone, Copy)]
pub struct KeyTypes {
    /// the type of its tree
    pub lms: LmsType,
    /// the type of its one-time keys
    pub ots: OtsType,
}

/// What a secret key is made from: its types, its identifier I and its seed SEED (RFC 8554, Appendix A).
#[derive(Drop)]
pub struct KeySeed {
    /// the type of its tree
    pub lms: LmsType,
    /// the type of its one-time keys
    pub ots: OtsType,
    /// I
    pub ident: [u8; 16],
    /// SEED
    pub start: [u8; 32],
}

impl Model for KeySeed {
    ghost use Rattle.lms_tree.specs.SecretKey.{SecretData};

    ghost Value = { SecretData };

    ghost view = { λ s. record { lms = s.lms; ots = s.ots; ident = s.ident; start = s.start } };
}
