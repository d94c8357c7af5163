ghost use Rattle.std.specs.Prelude.{◌≡◌, ◌≢◌, IfOk, vec_len};
ghost use Rattle.lms_tree.specs.LmsKind.{leaf_count};

use crate::indices::Indices;
use bec_disk::DiskError;
use lms_tree::{KeySeed, LeafGenerator, Secret, make_secret};
use std::alloc::Global;

/// A key, and which of its indices are used.
#[derive(Drop)]
pub struct OpenedKey {
    pub secret: Secret,
    pub indices: Indices,
}

impl OpenedKey {
    /// The key that is made from this, with its whole tree. The only error is want of memory.
    pub fn make<G: LeafGenerator>(
        generator: &G,
        alloc: Global,
        seed: &KeySeed,
        used: Vec<bool>,
    ) -> Result<OpenedKey, DiskError>
        requires { vec_len used ≡ leaf_count seed.now.lms }
        ensures secret { IfOk result (λ opened. opened.secret ≡ seed.now) }
        ensures used { IfOk result (λ opened. opened.indices ≡ used.items) }
        ensures memory { result ≢ Err DiskError.DiskFault }
    {
        let secret = make_secret(generator, alloc, seed)?;
        let indices = Indices::new(used);
        Ok(OpenedKey { secret, indices })
    }
}
