//! Lists that public types hold. A contract sees each as the list of its items.

ghost use Rattle.std.specs.Prelude.{◌≡◌, ℕ, List, IfOk};
ghost use Rattle.update_model.specs.declared.author_key.AuthorKey.{AuthorKey};
ghost use Rattle.update_model.specs.declared.update_id.UpdateId.{UpdateId};

use crate::{AuthorKey, UpdateId};
use std::alloc::{AllocError, Global};
use std::marker::Model;

/// A list of update ids.
#[derive(Drop)]
pub struct IdList {
    ids: Vec<UpdateId>,
}

impl Model for IdList {
    ghost Value = { List UpdateId };

    ghost view = { λ list. list.ids.items };
}

impl IdList {
    /// Takes over a vector.
    pub fn from_vec(ids: Vec<UpdateId>) -> Self
        ensures { result ≡ ids.items }
    {
        IdList { ids }
    }

    /// Lends the ids.
    pub fn as_slice(&self) -> &[UpdateId]
        ensures { result.now ≡ self.now }
    {
        self.ids.as_slice()
    }

    /// Gives the vector back.
    pub fn into_vec(self) -> Vec<UpdateId>
        ensures { result.items ≡ self }
    {
        let IdList { ids } = self;
        ids
    }

    /// An equal list on memory of its own.
    pub fn copy(&self, alloc: Global) -> Result<IdList, AllocError>
        ensures { IfOk result (λ list. list ≡ self.now) }
    {
        Ok(IdList {
            ids: Vec::from_slice(alloc, self.ids.as_slice())?,
        })
    }
}

/// A list of bytes.
#[derive(Drop)]
pub struct ByteList {
    bytes: Vec<u8>,
}

impl Model for ByteList {
    ghost Value = { List ℕ };

    ghost view = { λ list. list.bytes.items };
}

impl ByteList {
    /// Takes over a vector.
    pub fn from_vec(bytes: Vec<u8>) -> Self
        ensures { result ≡ bytes.items }
    {
        ByteList { bytes }
    }

    /// Lends the bytes.
    pub fn as_slice(&self) -> &[u8]
        ensures { result.now ≡ self.now }
    {
        self.bytes.as_slice()
    }

    /// Gives the vector back.
    pub fn into_vec(self) -> Vec<u8>
        ensures { result.items ≡ self }
    {
        let ByteList { bytes } = self;
        bytes
    }

    /// An equal list on memory of its own.
    pub fn copy(&self, alloc: Global) -> Result<ByteList, AllocError>
        ensures { IfOk result (λ list. list ≡ self.now) }
    {
        Ok(ByteList {
            bytes: Vec::from_slice(alloc, self.bytes.as_slice())?,
        })
    }
}

/// A list of author keys.
#[derive(Drop)]
pub struct KeyList {
    keys: Vec<AuthorKey>,
}

impl Model for KeyList {
    ghost Value = { List AuthorKey };

    ghost view = { λ list. list.keys.items };
}

impl KeyList {
    /// Takes over a vector.
    pub fn from_vec(keys: Vec<AuthorKey>) -> Self
        ensures { result ≡ keys.items }
    {
        KeyList { keys }
    }

    /// Lends the keys.
    pub fn as_slice(&self) -> &[AuthorKey]
        ensures { result.now ≡ self.now }
    {
        self.keys.as_slice()
    }

    /// Gives the vector back.
    pub fn into_vec(self) -> Vec<AuthorKey>
        ensures { result.items ≡ self }
    {
        let KeyList { keys } = self;
        keys
    }

    /// An equal list on memory of its own.
    pub fn copy(&self, alloc: Global) -> Result<KeyList, AllocError>
        ensures { IfOk result (λ list. list ≡ self.now) }
    {
        Ok(KeyList {
            keys: Vec::from_slice(alloc, self.keys.as_slice())?,
        })
    }
}

/// A list of positions, such as those of members in arrival order, from 0.
#[derive(Drop)]
pub struct PositionList {
    positions: Vec<u32>,
}

impl Model for PositionList {
    ghost Value = { List ℕ };

    ghost view = { λ list. list.positions.items };
}

impl PositionList {
    /// Takes over a vector.
    pub fn from_vec(positions: Vec<u32>) -> Self
        ensures { result ≡ positions.items }
    {
        PositionList { positions }
    }

    /// Lends the positions.
    pub fn as_slice(&self) -> &[u32]
        ensures { result.now ≡ self.now }
    {
        self.positions.as_slice()
    }

    /// Gives the vector back.
    pub fn into_vec(self) -> Vec<u32>
        ensures { result.items ≡ self }
    {
        let PositionList { positions } = self;
        positions
    }

    /// An equal list on memory of its own.
    pub fn copy(&self, alloc: Global) -> Result<PositionList, AllocError>
        ensures { IfOk result (λ list. list ≡ self.now) }
    {
        Ok(PositionList {
            positions: Vec::from_slice(alloc, self.positions.as_slice())?,
        })
    }
}
