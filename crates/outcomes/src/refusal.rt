ghost use Rattle.std.specs.Prelude.{◌≡◌};
ghost use Rattle.outcomes.specs.declared.refusal.Refusal.TheVariants.{Memory};
ghost use Rattle.outcomes.specs.Outcome.{status_for, from_creating, from_creating_key, from_disk, from_key, from_make};
ghost use Rattle.outcomes.specs.Outcome.{from_open, from_query, from_reading, from_store, from_taking, from_text};
ghost use Rattle.outcomes.specs.Outcome.{from_verdict};
ghost use Rattle.lms_tree.specs.LmsKind.{leaf_count};

use bec_bytes::ReadError;
use bec_disk::{Disk, DiskError};
use confluence_test::SchemaRefusal;
use key_directory::KeyRefusal;
use key_index::{CreateKeyKind, KeyStore};
use lms_tree::LmsType;
use query::{QueryError, QueryFault};
use replica::{CreateKind, MakeFault};
use schema::Schema;
use schema_text::SchemaFault;
use schema_verdict::VerdictRefusal;
use schema_verdict::status::{
    FULL, NO_COMMAND, OUT_OF_MEMORY, PEER, REFUSED, STORE, STORE_FAULT, STREAM_FAULT,
};
use session_rules::PeerFault;
use std::alloc::AllocError;
use store_directory::{OpenRefusal, StoreRefusal};
use table_model::{Counterexample, Invariant};
use txn_text::{TextError, TextFault};
use update_stream::RecordFault;

/// Why a command is not done.
#[derive(Drop)]
pub enum Refusal {
    /// The words are no command.
    Words,
    /// A record of a stream is refused, and none before it.
    Record {
        /// The number of the record, counted from 1.
        number: u32,
        /// Why it is refused.
        fault: RecordFault,
    },
    /// A bundle ends inside its schema.
    CutSchema,
    /// The text of a schema has this fault first.
    Schema(SchemaFault),
    /// An invariant does not survive merging, and is the first of its schema that does not.
    NotConfluent {
        /// The schema.
        schema: Schema,
        /// The invariant.
        which: Invariant,
        /// A history that breaks it.
        example: Counterexample,
    },
    /// The text of a query is none, for this first fault.
    Query(QueryFault),
    /// The answers of a query have no names of rows, or an order or a limit, so that changes of them cannot be shown.
    QueryNotNamed,
    /// The text of a transaction has this fault first.
    Transaction(TextFault),
    /// The update would not be valid: for this reason, at the operation with this number, from 0.
    Invalid {
        /// One of the constants of `table_model::reason`.
        reason: u8,
        /// The number of the operation.
        operation: u16,
    },
    /// The schema lists authors, and not the key.
    AuthorNotListed,
    /// The update would have too many bytes.
    UpdateTooLong,
    /// The update that was signed has the id of one that is held.
    IdTaken,
    /// One more update would pass a limit of the store.
    Full,
    /// The other store of a session broke its rules: their databases differ, say, or it has an update that is refused
    /// here.
    Peer(PeerFault),
    /// Every index of the key is used, of which there are so many.
    KeySpent(u32),
    /// There are so many heads, more than an update may name.
    Heads(u32),
    /// What is read is no two updates that use one index of a key for two messages.
    NotDoubled,
    /// The seal is none of what is read, by the key.
    BadSeal,
    /// What is to be sealed, or is said to be, has too many bytes.
    InputTooLong,
    /// The directory has no store.
    NoStore,
    /// The directory has a store.
    StoreThere,
    /// The store of the directory is damaged.
    BadStore,
    /// The directory has no key.
    NoKey,
    /// The directory has a key.
    KeyThere,
    /// The key of the directory is damaged.
    BadKey,
    /// The shelf failed, or one of its disks.
    StoreFault,
    /// The source failed.
    Stream,
    /// Memory ran out.
    Memory,
}

impl Refusal {
    /// The exit status for it.
    pub fn status(&self) -> u8
        ensures { result ≡ status_for self.now }
    {
        match self {
            Refusal::Words => NO_COMMAND,
            Refusal::Record {
                fault: RecordFault::Full,
                ..
            } => FULL,
            Refusal::Full | Refusal::KeySpent(_) | Refusal::Heads(_) => FULL,
            Refusal::Peer(_) => PEER,
            Refusal::NoStore | Refusal::StoreThere | Refusal::BadStore => STORE,
            Refusal::NoKey | Refusal::KeyThere | Refusal::BadKey => STORE,
            Refusal::StoreFault => STORE_FAULT,
            Refusal::Stream => STREAM_FAULT,
            Refusal::Memory => OUT_OF_MEMORY,
            _ => REFUSED,
        }
    }
}

impl From<AllocError> for Refusal {
    ghost from_gives = { λ _ refusal. refusal ≡ Memory };

    fn from(_error: AllocError) -> Refusal {
        Refusal::Memory
    }
}

impl From<ReadError> for Refusal {
    ghost from_gives = { λ error refusal. refusal ≡ from_reading error };

    fn from(error: ReadError) -> Refusal {
        match error {
            ReadError::Failed => Refusal::Stream,
            ReadError::Memory => Refusal::Memory,
        }
    }
}

impl From<SchemaRefusal> for Refusal {
    ghost from_gives = { λ why refusal. refusal ≡ from_taking why };

    fn from(why: SchemaRefusal) -> Refusal {
        match why {
            SchemaRefusal::Schema(fault) => Refusal::Schema(fault),
            SchemaRefusal::NotConfluent {
                schema,
                which,
                example,
            } => Refusal::NotConfluent {
                schema,
                which,
                example,
            },
            SchemaRefusal::Memory => Refusal::Memory,
        }
    }
}

impl From<VerdictRefusal> for Refusal {
    ghost from_gives = { λ why refusal. refusal ≡ from_verdict why };

    fn from(why: VerdictRefusal) -> Refusal {
        match why {
            VerdictRefusal::NotTaken(why) => Refusal::from(why),
            VerdictRefusal::Stream => Refusal::Stream,
        }
    }
}

impl From<StoreRefusal> for Refusal {
    ghost from_gives = { λ refused refusal. refusal ≡ from_store refused };

    fn from(refused: StoreRefusal) -> Refusal {
        match refused {
            StoreRefusal::NoStore => Refusal::NoStore,
            StoreRefusal::BadStore => Refusal::BadStore,
            StoreRefusal::DiskFault => Refusal::StoreFault,
            StoreRefusal::Memory => Refusal::Memory,
        }
    }
}

impl From<DiskError> for Refusal {
    ghost from_gives = { λ error refusal. refusal ≡ from_disk error };

    fn from(error: DiskError) -> Refusal {
        match error {
            DiskError::DiskFault => Refusal::StoreFault,
            DiskError::Memory => Refusal::Memory,
        }
    }
}

impl From<CreateKeyKind> for Refusal {
    ghost from_gives = { λ why refusal. refusal ≡ from_creating_key why };

    fn from(why: CreateKeyKind) -> Refusal {
        match why {
            CreateKeyKind::KeyThere => Refusal::KeyThere,
            CreateKeyKind::DiskFault => Refusal::StoreFault,
            CreateKeyKind::Memory => Refusal::Memory,
        }
    }
}

impl From<CreateKind> for Refusal {
    ghost from_gives = { λ why refusal. refusal ≡ from_creating why };

    fn from(why: CreateKind) -> Refusal {
        match why {
            CreateKind::NotEmpty => Refusal::StoreThere,
            CreateKind::BadSchema(fault) => Refusal::Schema(fault),
            CreateKind::NotConfluent {
                schema,
                which,
                example,
            } => Refusal::NotConfluent {
                schema,
                which,
                example,
            },
            CreateKind::DiskFault => Refusal::StoreFault,
            CreateKind::Memory => Refusal::Memory,
        }
    }
}

impl From<KeyRefusal> for Refusal {
    ghost from_gives = { λ refused refusal. refusal ≡ from_key refused };

    fn from(refused: KeyRefusal) -> Refusal {
        match refused {
            KeyRefusal::NoKey => Refusal::NoKey,
            KeyRefusal::BadKey => Refusal::BadKey,
            KeyRefusal::DiskFault => Refusal::StoreFault,
            KeyRefusal::Memory => Refusal::Memory,
        }
    }
}

impl From<OpenRefusal> for Refusal {
    ghost from_gives = { λ refused refusal. refusal ≡ from_open refused };

    fn from(refused: OpenRefusal) -> Refusal {
        match refused {
            OpenRefusal::Store(why) => Refusal::from(why),
            OpenRefusal::Key(why) => Refusal::from(why),
        }
    }
}

impl From<QueryError> for Refusal {
    ghost from_gives = { λ error refusal. refusal ≡ from_query error };

    fn from(error: QueryError) -> Refusal {
        match error {
            QueryError::Fault(fault) => Refusal::Query(fault),
            QueryError::Memory => Refusal::Memory,
        }
    }
}

impl From<TextError> for Refusal {
    ghost from_gives = { λ error refusal. refusal ≡ from_text error };

    fn from(error: TextError) -> Refusal {
        match error {
            TextError::Fault(fault) => Refusal::Transaction(fault),
            TextError::Memory => Refusal::Memory,
        }
    }
}

/// Why no update was made by a key.
pub fn made_refusal<D: Disk>(key: &KeyStore<D>, fault: MakeFault) -> Refusal
    ensures { result ≡ from_make key.now.secret fault }
{
    match fault {
        MakeFault::NotListed => Refusal::AuthorNotListed,
        MakeFault::TooManyHeads(count) => Refusal::Heads(count),
        MakeFault::Invalid { reason, operation } => Refusal::Invalid { reason, operation },
        MakeFault::TooLong(_) => Refusal::UpdateTooLong,
        MakeFault::Full => Refusal::Full,
        MakeFault::Spent => Refusal::KeySpent(index_count(key)),
        MakeFault::Taken(_) => Refusal::IdTaken,
        MakeFault::DiskFault(_) => Refusal::StoreFault,
        MakeFault::Memory => Refusal::Memory,
    }
}

/// How many indices a key has.
fn index_count<D: Disk>(key: &KeyStore<D>) -> u32
    ensures { result ≡ leaf_count key.now.secret.lms }
{
    match LmsType::from_type_word(key.public().lms) {
        Some(lms) => lms.leaf_count(),
        None => 0,
    }
}
