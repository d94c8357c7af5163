// Secret keys.

ghost use Rattle.std.specs.Prelude.{◌≡◌, ◌+◌, ◌*◌, ◌<◌, IfOk, length};
ghost use Rattle.lms_tree.specs.LmsKind.{height, leaf_count};
ghost use Rattle.lms_tree.specs.SecretKey.{path_of, public_key, signature_by};
ghost use Rattle.lms_tree.specs.Signature.{Signed};
ghost use Rattle.update_model.specs.Form.{IsKnownKey, signature_length};

use crate::leaves::LeafGenerator;
use crate::lms_type::LmsType;
use crate::nodes::sibling;
use crate::seed::KeySeed;
use crate::tree::write_inner_nodes;
use byteorder::{BigEndian, ByteOrder};
use lm_ots::{OtsType, sign};
use std::alloc::{AllocError, Global};
use std::marker::Model;
use update_model::AuthorKey;

/// A secret key, with the values of all nodes of its tree. Contracts see what it is made from.
#[derive(Drop)]
pub struct Secret {
    lms: LmsType,
    ots: OtsType,
    ident: [u8; 16],
    start: [u8; 32],
    // The value of node r at place r; place 0 is free.
    nodes: Vec<[u8; 32]>,
}

impl Model for Secret {
    ghost use Rattle.lm_ots.specs.OneTime.{public_value};
    ghost use Rattle.lms_tree.specs.LmsKind.{leaf_count};
    ghost use Rattle.lms_tree.specs.SecretKey.{IsTree, SecretData};

    ghost Value = { SecretData };

    ghost view = { λ s. record { lms = s.lms; ots = s.ots; ident = s.ident; start = s.start } };

    ghost invariant = { λ s. IsTree s.ident (λ q. public_value s.ots s.ident q s.start) (leaf_count s.lms) s.nodes.items };
}

/// The secret key that is made from this (RFC 8554, Appendix A), its leaves computed by the generator. It
/// makes the whole tree, in the time of all one-time public keys. The only error is want of memory.
pub fn make_secret<G: LeafGenerator>(
    generator: &G,
    alloc: Global,
    seed: &KeySeed,
) -> Result<Secret, AllocError>
    ensures { IfOk result (λ secret. secret ≡ seed.now) }
{
    let count = seed.lms.leaf_count();
    let mut leaves = generator.all_leaves(alloc, seed)?;
    let mut nodes = vec![in alloc; [0; 32]; count as usize]?;
    nodes.append(&mut leaves)?;
    write_inner_nodes(count, &seed.ident, &mut nodes);
    Ok(Secret {
        lms: seed.lms,
        ots: seed.ots,
        ident: seed.ident,
        start: seed.start,
        nodes,
    })
}

impl Secret {
    /// How many leaves there are, each of which signs once.
    pub fn leaf_count(&self) -> u32
        ensures { result ≡ leaf_count self.now.lms }
    {
        self.lms.leaf_count()
    }

    /// The public key.
    pub fn public(&self) -> AuthorKey
        ensures value { result ≡ public_key self.now }
        ensures known { IsKnownKey result }
    {
        AuthorKey {
            lms: self.lms.type_word(),
            ots: self.ots.type_word(),
            ident: self.ident,
            root: self.nodes[1],
        }
    }

    /// Writes leaf `q`'s signature of `msg` over `out`, which has the length that
    /// `update_model::signature_len` gives for the public key. `c` are the 32 random bytes that the
    /// message is digested behind. A leaf signs one message only: two signatures of one leaf give its
    /// key away.
    pub fn sign_at(&self, q: u32, c: &[u8; 32], msg: &[u8], out: &mut [u8])
        requires leaf { q < leaf_count self.now.lms }
        requires len { length out.old ≡ signature_length (public_key self.now) }
        ensures made { out.new ≡ signature_by self.now q c.now msg.now }
        ensures signed { Signed (public_key self.now) msg.now out.new }
    {
        let (number, rest) = out.split_at_mut(4);
        let (one_time, rest) = rest.split_at_mut(self.ots.signature_length());
        let (word, path) = rest.split_at_mut(4);
        BigEndian::write_u32(number, q);
        sign(self.ots, &self.ident, q, &self.start, c, msg, one_time);
        BigEndian::write_u32(word, self.lms.type_word());
        self.write_path(q, path);
    }

    // Writes the siblings of the nodes from leaf `q` up to the root.
    fn write_path(&self, q: u32, out: &mut [u8])
        requires leaf { q < leaf_count self.now.lms }
        requires len { length out.old ≡ 32 * height self.now.lms }
        ensures { out.new ≡ path_of self.now q }
    {
        let mut node = self.lms.leaf_count() + q;
        for level in 0..self.lms.height() {
            let place = 32 * usize::from(level);
            let beside = sibling(node) as usize;
            out[place..place + 32].copy_from_slice(&self.nodes[beside]);
            node /= 2;
        }
    }
}
