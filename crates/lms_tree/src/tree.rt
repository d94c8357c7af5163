// The tree of a key, as a list of its nodes' values.

ghost use Rattle.std.specs.Prelude.{◌≡◌, ℕ, [], ◌+◌, ◌*◌, ◌^◌, ◌<◌, ◌≤◌, length, slice_index_or};
ghost use Rattle.lm_ots.specs.OneTime.{public_value};
ghost use Rattle.lms_tree.specs.Tree.{inner_node, leaf_node};

use crate::nodes::{inner_node, leaf_node};
use lm_ots::{OtsType, public_of};

/// Writes the other nodes' values from those of the leaves, from the last of them down to the root.
pub fn write_inner_nodes(leaves: u32, ident: &[u8; 16], nodes: &mut [[u8; 32]])
    requires few { leaves ≤ 2 ^ 15 }
    requires len { length nodes.old ≡ 2 * leaves }
    ensures leaves { (q : ℕ) → q < leaves → slice_index_or nodes.new (leaves + q) [] ≡ slice_index_or nodes.old
        (leaves + q) [] }
    ensures inner { (r : ℕ) → 0 < r → r < leaves → slice_index_or nodes.new r [] ≡ inner_node ident.now r
        (slice_index_or nodes.new (2 * r) []) (slice_index_or nodes.new (2 * r + 1) []) }
{
    for r in (1..leaves).rev() {
        let place = r as usize;
        nodes[place] = inner_node(ident, r, &nodes[2 * place], &nodes[2 * place + 1]);
    }
}
