// The values of nodes, and the path from a leaf to the root.

ghost use Rattle.std.specs.Prelude.{◌≡◌, ◌+◌, ◌*◌, ◌/◌, ◌^◌, ◌<◌, ◌≤◌, ◌++◌, length, take, drop};
ghost use Rattle.std.specs.Int.{w32, to_be_bytes};
ghost use Rattle.sha2.specs.Hashers.{Holds256};
ghost use Rattle.lms_tree.specs.LmsKind.{height, leaf_count};
ghost use Rattle.lms_tree.specs.Tree.{climbed, inner_node, leaf_node, parent_of, sibling};

use crate::lms_type::LmsType;
use byteorder::{BigEndian, ByteOrder};
use sha2::{Digest, Sha256};

/// D_LEAF of RFC 8554, section 5.3: it sets the digests of leaves apart.
const LEAF_TAG: [u8; 2] = [0x82, 0x82];

/// D_INTR of RFC 8554, section 5.3: it sets the digests of inner nodes apart.
const INNER_TAG: [u8; 2] = [0x83, 0x83];

// A hasher of I, the node's number and a tag, which every node's digest begins with.
fn node_hasher(ident: &[u8; 16], r: u32, tag: &[u8; 2]) -> Sha256
    ensures { Holds256 result (ident.now ++ to_be_bytes w32 r ++ tag.now) }
{
    let mut number = [0; 4];
    BigEndian::write_u32(&mut number, r);
    let mut hasher = Sha256::new();
    hasher.update(ident);
    hasher.update(&number);
    hasher.update(tag);
    hasher
}

/// The value of leaf `r`, from its one-time public value.
pub fn leaf_node(ident: &[u8; 16], r: u32, value: &[u8; 32]) -> [u8; 32]
    ensures { result ≡ leaf_node ident.now r value.now }
{
    let mut hasher = node_hasher(ident, r, &LEAF_TAG);
    hasher.update(value);
    hasher.finalize()
}

/// The value of node `r`, from those of its children.
pub fn inner_node(ident: &[u8; 16], r: u32, left: &[u8], right: &[u8]) -> [u8; 32]
    ensures { result ≡ inner_node ident.now r left.now right.now }
{
    let mut hasher = node_hasher(ident, r, &INNER_TAG);
    hasher.update(left);
    hasher.update(right);
    hasher.finalize()
}

fn parent_of(ident: &[u8; 16], r: u32, value: &[u8; 32], beside: &[u8]) -> [u8; 32]
    ensures { result ≡ parent_of ident.now r value.now beside.now }
{
    if r % 2 == 0 {
        inner_node(ident, r / 2, value, beside)
    } else {
        inner_node(ident, r / 2, beside, value)
    }
}

/// The node with the same parent.
pub fn sibling(r: u32) -> u32
    requires { r < 2 ^ 31 }
    ensures { result ≡ sibling r }
{
    if r % 2 == 0 { r + 1 } else { r - 1 }
}

/// The value at the top of the path from leaf `r`: `path` has the sibling's value for each of the
/// tree's levels, and `leaf` is the leaf's own value.
pub fn climb(lms: LmsType, ident: &[u8; 16], r: u32, leaf: [u8; 32], path: &[u8]) -> [u8; 32]
    requires { length path.now ≡ 32 * height lms }
    ensures { result ≡ climbed ident.now (λ level. take 32 (drop (32 * level) path.now)) r leaf (height lms) }
{
    let mut node = r;
    let mut value = leaf;
    for level in 0..lms.height() {
        let place = 32 * usize::from(level);
        value = parent_of(ident, node, &value, &path[place..place + 32]);
        node /= 2;
    }
    value
}
