//! What an update is: the names of updates and authors, the body that is signed, and the graph of updates.
//!
//! This crate is the base that nearly every other crate stands on, so it has definitions and little code:
//! plain types for the parts of an update and of a row, the traits through which others are seen however they
//! are kept ([`Member`], [`Ancestors`], [`RowsAt`]), and, in its specs, what a closed list, an ancestor and a
//! head are.
//!
//! An update names its direct predecessors by id. A list of members in arrival order is *closed* where ids are
//! distinct and each predecessor stands earlier. The *heads* of a list are the members that no member names.
//!
//! ```text
//! let key = AuthorKey { lms: 5, ots: 4, ident: [0; 16], root: [0; 32] };
//! let length = signature_len(&key);       // 1292
//! ```
//!
//! It reads and writes no bytes (see `update_codec`), keeps no graph (`hash_graph`) and knows no signature
//! (`lms_tree`).
#![tactic(auto)]

mod ancestors;
mod author_key;
mod body;
mod checking;
mod db_rule;
mod laws;
mod limits;
mod lists;
mod member;
mod node;
mod op;
mod op_list;
mod row_entry;
mod row_name;
mod rows_at;
mod text_value;
mod update;
mod update_id;
mod value;
mod value_list;

pub use ancestors::Ancestors;
pub use author_key::{AuthorKey, signature_len};
pub use body::Body;
pub use checking::check_ops;
pub use db_rule::DbRule;
pub use laws::{heads_cover_members, heads_of_same_set, nonempty_has_head};
pub use limits::{
    MAX_BYTES, MAX_MEMBERS, MAX_NODE_OPS, MAX_NOTE, MAX_OPS, MAX_PLAIN_OPS, MAX_PREDS, MAX_TEXT,
    MAX_VALUES,
};
pub use lists::{ByteList, IdList, KeyList, PositionList};
pub use member::Member;
pub use node::Node;
pub use op::Op;
pub use op_list::OpList;
pub use row_entry::RowEntry;
pub use row_name::RowName;
pub use rows_at::RowsAt;
pub use text_value::{TextValue, check_value_text};
pub use update::Update;
pub use update_id::UpdateId;
pub use value::Value;
pub use value_list::ValueList;
