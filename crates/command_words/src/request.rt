use lm_ots::OtsType;
use lms_tree::LmsType;

/// What the words of a command line ask for. A directory is the word that names it.
#[derive(Clone, Copy, Debug, Drop)]
pub enum Request<'a> {
    /// `heads`: the heads of a stream of updates, or of the store in a directory.
    Heads {
        directory: Option<&'a str>,
    },
    /// `check`: whether a schema is confluent.
    Check,
    /// `dump`: the tables of a bundle, or of the store in a directory, as lines or as JSON.
    Dump {
        directory: Option<&'a str>,
        json: bool,
    },
    /// `init`: makes a store.
    Init {
        directory: &'a str,
    },
    /// `keygen`: makes a key of this height and width.
    Keygen {
        directory: &'a str,
        height: LmsType,
        width: OtsType,
    },
    /// `apply`: makes an update of a transaction, with a note of at most 256 bytes or without one.
    Apply {
        directory: &'a str,
        note: Option<&'a str>,
    },
    /// `join`: makes an update of no operation over the heads.
    Join {
        directory: &'a str,
    },
    /// `export`: a store as a bundle, or its stream of updates alone.
    Export {
        directory: &'a str,
        updates: bool,
    },
    /// `query`: what a query asks of the store in a directory, one row a line or as JSON.
    Query {
        directory: &'a str,
        text: &'a str,
        json: bool,
    },
    /// `merge`: reconciles the stores in two directories, whose words differ.
    Merge {
        first: &'a str,
        second: &'a str,
    },
    /// `notes`: the notes of the updates of the store in a directory.
    Notes {
        directory: &'a str,
    },
}
