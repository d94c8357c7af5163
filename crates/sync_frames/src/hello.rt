ghost use Rattle.std.specs.Prelude.{◌≡◌, ◌≤◌, length};
ghost use Rattle.std.specs.List.Sorted.{IsStrictlySortedBy};
ghost use Rattle.update_model.specs.Entry.{id_cmp};

use crate::MAX_OLD;
use bloom_summary::MAX_SUMMARY_BYTES;
use std::marker::Model;
use update_model::{ByteList, IdList, MAX_MEMBERS};

/// How an end of a session greets the other.
///
/// Its type keeps that both lists of ids rise, and that there are no more than 131,072 heads, 4,096 old heads and
/// 163,840 bytes of a filter.
#[derive(Drop)]
pub struct Hello {
    /// The id of the database.
    pub database: [u8; 32],
    /// The id of the node.
    pub node: [u8; 32],
    /// The ids of the heads of what the node holds.
    pub heads: IdList,
    /// The ids of the heads of what both held when they last met, as the node remembers them.
    pub old: IdList,
    /// The bytes of a summary of what the node has had since then.
    pub filter: ByteList,
}

impl Model for Hello {
    ghost use Rattle.sync_frames.specs.Payload.{HelloData, IsHello};

    ghost Value = { HelloData };

    ghost view = { λ hello. record {
      database = hello.database;
      node = hello.node;
      heads = hello.heads;
      old = hello.old;
      filter = hello.filter;
    } };

    ghost invariant = { λ hello. IsHello (record {
      database = hello.database;
      node = hello.node;
      heads = hello.heads;
      old = hello.old;
      filter = hello.filter;
    }) };
}

impl Hello {
    /// A Hello of these parts.
    pub fn new(
        database: [u8; 32],
        node: [u8; 32],
        heads: IdList,
        old: IdList,
        filter: ByteList,
    ) -> Hello
        requires few_heads { length heads ≤ MAX_MEMBERS }
        requires heads { IsStrictlySortedBy id_cmp heads }
        requires few_old { length old ≤ MAX_OLD }
        requires old { IsStrictlySortedBy id_cmp old }
        requires small { length filter ≤ MAX_SUMMARY_BYTES }
        ensures { result ≡ record { database = database; node = node; heads = heads; old = old; filter = filter } }
    {
        Hello {
            database,
            node,
            heads,
            old,
            filter,
        }
    }
}
