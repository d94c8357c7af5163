use crate::word_lists::{SampleList, TokenList};
use row_check::Cmp;
use schema::Action;
use text_words::{ByteString, Literal};
use update_model::{AuthorKey, RowName};

/// What a line says. Names are any words here: whether they are names is judged later.
#[derive(Drop)]
pub(crate) enum Form {
    /// `DATABASE name`
    Database {
        name: ByteString,
    },
    /// `AUTHOR hex`
    Author {
        key: AuthorKey,
    },
    /// `TABLE name [DELETABLE [OWNED]]`
    Table {
        name: ByteString,
        deletable: bool,
        owned: bool,
    },
    /// `COLUMN name INT lo hi [NULL]` and its kin
    Column {
        name: ByteString,
        kind: PlainKind,
        null: bool,
    },
    /// `REF name table RESTRICT|CASCADE|SETNULL [NULL]`
    Ref {
        name: ByteString,
        table: ByteString,
        action: Action,
        null: bool,
    },
    /// `CHECK expression`
    Check {
        tokens: TokenList,
    },
    /// `MATCH column cmp ref.column`
    Match {
        column: ByteString,
        cmp: Cmp,
        reference: ByteString,
        target_column: ByteString,
    },
    /// `UNIQUE column [KEEP LEAST]`
    Unique {
        column: ByteString,
        keeps: bool,
    },
    /// `ATMOST k`
    AtMost {
        count: i64,
    },
    /// `SAMPLE value ..`
    Sample {
        values: SampleList,
    },
}

/// The kind of a plain column as a line writes it, with bounds of whatever size.
#[derive(Clone, Copy)]
pub(crate) enum PlainKind {
    Int { lo: i64, hi: i64 },
    Text { lo: i64, hi: i64 },
    Flag,
}

/// A value as a `SAMPLE` writes it, with a text of whatever length. The name of a row is one, though no plain column
/// has it.
#[derive(Drop)]
pub(crate) enum SampleValue {
    Literal(Literal),
    Row(RowName),
}
