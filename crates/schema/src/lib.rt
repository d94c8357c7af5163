//! Schemas: what a database's tables are.
//!
//! A [`Schema`] has tables with their columns, the references between them, and what holds of each row. It says whose
//! updates the database takes, and keeps the text that declares it. Its numbers name what is there, each expression may
//! be asked of every row that fits, and samples fit (`IsSchema` of the definitions).
//!
//! Whether a value fits a column is [`fits_column`], and whether the `CHECK` lines of a table are true of a row
//! [`checks_hold`].
//!
//! No text is read here (crate `schema_text`), no rows are kept, and no invariant is judged (crate `table_model`): a
//! schema may still be refused for its invariants.
#![tactic(auto)]

mod action;
mod checks;
mod column;
mod fitting;
mod limits;
mod lists;
mod lookups;
mod rules;
mod schema;
mod table_def;

pub use action::Action;
pub use checks::{check_holds, checks_hold};
pub use column::{Column, ColumnKind};
pub use fitting::{all_fit, fits_column};
pub use limits::{MAX_CHECKS, MAX_COLUMNS, MAX_MATCHES, MAX_TABLES};
pub use lists::{CheckList, ColumnList, MatchList, TableList, UniqueList};
pub use lookups::table_number;
pub use rules::{CheckRule, MatchRule, UniqueRule};
pub use schema::Schema;
pub use table_def::TableDef;
