ghost use Rattle.std.specs.Prelude.{◌≡◌, ◌≤◌, length, IfOk};
ghost use Rattle.update_model.specs.Block.{AreBytes};
ghost use Rattle.bloom_summary.specs.Bloom.{AreBits, is_member};

use crate::MAX_SUMMARY_BYTES;
use crate::bits::{are_set, set_all};
use std::alloc::{AllocError, Global};
use std::marker::Model;
use update_model::{MAX_MEMBERS, UpdateId};

/// Does nothing: that each number in a slice of bytes is one holds by type, and callers learn it here.
fn are_bytes(_bytes: &[u8])
    ensures { AreBytes _bytes.now }
{}

/// A summary of update ids. A contract sees its bytes, of which there are at most [`MAX_SUMMARY_BYTES`].
#[derive(Drop)]
pub struct Summary {
    bytes: Vec<u8>,
}

impl Model for Summary {
    ghost use Rattle.std.specs.Prelude.{ℕ, List, ◌≤◌, length};
    ghost use Rattle.bloom_summary.specs.declared.limits.TheConstants.{MAX_SUMMARY_BYTES};

    ghost Value = { List ℕ };

    ghost view = { λ summary. summary.bytes.items };

    ghost invariant = { λ summary. length summary.bytes.items ≤ MAX_SUMMARY_BYTES };
}

impl Summary {
    /// The summary of these ids, of which there are no more than a graph has members. It takes time for each id, and
    /// memory for ten bits of each. It gives up where memory runs out.
    pub fn of(alloc: Global, ids: &[UpdateId]) -> Result<Summary, AllocError>
        requires { length ids.now ≤ MAX_MEMBERS }
        ensures { IfOk result (λ summary. AreBits ids.now summary) }
    {
        let mut bytes = vec![in alloc; 0; (10 * ids.len()).div_ceil(8)]?;
        for id in ids {
            set_all(bytes.as_mut_slice(), id);
        }
        are_bytes(bytes.as_slice());
        Ok(Summary { bytes })
    }

    /// The summary with these bytes, which another made; any bytes are one. They are copied. It gives up where memory
    /// runs out.
    pub fn from_bytes(alloc: Global, bytes: &[u8]) -> Result<Summary, AllocError>
        requires { length bytes.now ≤ MAX_SUMMARY_BYTES }
        ensures { IfOk result (λ summary. summary ≡ bytes.now) }
    {
        Ok(Summary {
            bytes: Vec::from_slice(alloc, bytes)?,
        })
    }

    /// Whether the id is a member: each id that was summed up is, and some others are. It takes no memory.
    pub fn member(&self, id: &UpdateId) -> bool
        ensures { result ≡ is_member self.now id.now }
    {
        let bytes = self.bytes.as_slice();
        !bytes.is_empty() && are_set(bytes, id)
    }

    /// Lends the bytes.
    pub fn bytes(&self) -> &[u8]
        ensures value { result.now ≡ self.now }
        ensures few { length self.now ≤ MAX_SUMMARY_BYTES }
    {
        self.bytes.as_slice()
    }
}
