ghost use Rattle.std.specs.Prelude.{◌≡◌, not, count_by, length, IfOk, OnOk, OnErr};
ghost use Rattle.update_model.specs.Form.{IsKnownKey, signature_length};
ghost use Rattle.lms_tree.specs.Signature.{Signed};
ghost use Rattle.lms_tree.specs.SecretKey.{public_key, signature_by};
ghost use Rattle.key_index.specs.KeyState.{IsLast, parts_of, store_of};
ghost use Rattle.key_index.specs.Kept.{IsStore};
ghost use Rattle.key_index.specs.Used.{least_unused};
ghost use Rattle.key_index.specs.Reserving.{Reserves};

use crate::indices::Indices;
use crate::opened::OpenedKey;
use crate::reserve::Reserve;
use bec_disk::{Disk, MemDisk, write_synced};
use lms_tree::Secret;
use std::marker::Model;
use update_model::AuthorKey;

/// A key, and the disks of its parts Key and Used. The part Used has a byte for each index, which is
/// not 0 where the index is used.
///
/// An index is used in this store where its byte was not 0 at the opening, or where a reservation has
/// tried it since.
#[derive(Drop)]
pub struct KeyStore<D: Disk> {
    key: D,
    used: D,
    secret: Secret,
    /// Which indices are used in this store.
    indices: Indices,
    /// The index that a reservation of this store tried last.
    tried: Option<u32>,
}

impl<D: Disk> Model for KeyStore<D> {
    ghost use Rattle.key_index.specs.KeyState.{KeyState, store_of};
    ghost use Rattle.key_index.specs.Kept.{IsStore};

    ghost Value = { KeyState };

    ghost view = { λ store. record (store_of D.state D.faults store.key store.used store.secret store.indices)
        { tried = store.tried } };

    ghost invariant = { λ store. IsStore (D.state store.used) store.secret store.indices };
}

impl<D: Disk> KeyStore<D> {
    /// The store of a key over its two disks.
    pub(crate) fn over(key: D, used: D, opened: OpenedKey) -> KeyStore<D>
        requires { IsStore (D.state used) opened.secret opened.indices }
        ensures { result ≡ store_of D.state D.faults key used opened.secret opened.indices }
    {
        KeyStore {
            key,
            used,
            secret: opened.secret,
            indices: opened.indices,
            tried: None,
        }
    }

    /// The public key.
    pub fn public(&self) -> AuthorKey
        ensures value { result ≡ public_key self.now.secret }
        ensures known { IsKnownKey result }
    {
        self.secret.public()
    }

    /// How many indices are not used in this store. It takes constant time.
    pub fn left(&self) -> u32
        ensures { result ≡ count_by not self.now.taken }
    {
        self.indices.left()
    }

    /// The least index that is not used in this store. It takes no memory.
    pub fn next(&self) -> Option<u32>
        ensures { result ≡ least_unused self.now.taken }
    {
        self.indices.least()
    }

    /// The index that a reservation of this store tried last, and where none tried one the greatest
    /// that is used. It takes no memory.
    pub fn last(&self) -> Option<u32>
        ensures { IsLast self.now result }
    {
        match self.tried {
            Some(index) => Some(index),
            None => self.indices.greatest(),
        }
    }

    /// Gives the disks of the parts Key and Used back.
    pub fn into_disks(self) -> (D, D)
        ensures { parts_of D.state D.faults result.0 result.1 ≡ self.parts }
    {
        let KeyStore {
            key,
            used,
            secret: _,
            indices: _,
            tried: _,
        } = self;
        (key, used)
    }

    /// Hands out the least index that is not used in this store. It is on the disk before it is
    /// answered, and no later reservation answers it again. Whether it is answered or a fault of the
    /// disk, the index is used in this store from then on. It takes no memory.
    pub fn reserve(&mut self) -> Result<u32, Reserve>
        ensures { Reserves self.old result self.new }
    {
        let Some(index) = self.indices.take_least() else {
            return Err(Reserve::Spent);
        };
        self.tried = Some(index);
        write_synced(&mut self.used, u64::from(index), &[1])?;
        Ok(index)
    }

    /// Reserves an index, writes its leaf's signature of `msg` over `out`, and answers the index. `out`
    /// has the length that `update_model::signature_len` gives for the public key, and `c` are the 32
    /// random bytes that the message is digested behind. After a refusal `out` is as it was. It takes no
    /// memory.
    pub fn sign(&mut self, c: &[u8; 32], msg: &[u8], out: &mut [u8]) -> Result<u32, Reserve>
        requires { length out.old ≡ signature_length (public_key self.old.secret) }
        ensures reserves { Reserves self.old result self.new }
        ensures made { IfOk result (λ index. out.new ≡ signature_by self.old.secret index c.now msg.now) }
        ensures signed { OnOk result (Signed (public_key self.old.secret) msg.now out.new) }
        ensures untouched { OnErr result (out.new ≡ out.old) }
    {
        let index = self.reserve()?;
        self.secret.sign_at(index, c, msg, out);
        Ok(index)
    }
}

impl KeyStore<MemDisk> {
    /// Lets each of both disks pass so many calls more and then fail every call.
    pub fn arm(&mut self, calls: u32)
        ensures { self.new ≡ self.old }
    {
        self.key.arm(calls);
        self.used.arm(calls);
    }

    /// Whether a call of one of the disks failed for want of memory.
    pub fn starved(&self) -> bool {
        self.key.starved() || self.used.starved()
    }
}
