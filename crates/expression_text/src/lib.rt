//! Expressions about rows, read from their words.
//!
//! The words of a CHECK line become [`Token`]s by [`tokens_of`], [`is_expression`] tells whether these are an
//! expression of the grammar, and [`build`] makes it. What a caller judges in between, each fault apart, are the names
//! of columns ([`are_known`]) and the texts ([`are_short_texts`], [`are_row_texts`]); and of the expression that was
//! built the kinds of its columns ([`has_kinds`]).
//!
//! ```text
//! let tokens = tokens_of(alloc, words.as_slice())?;
//! is_expression(tokens.as_slice())                        // whatever its columns are
//! are_known(tokens.as_slice(), names)                     // each column has one of these names
//! let expr = build(alloc, tokens.as_slice(), names)?;
//! has_kinds(&expr, kinds)                                 // so that `eval` may be asked of each row of these kinds
//! ```
//!
//! It reads no lines (see `text_words`), answers no expression (see `row_check`) and knows no tables.
#![tactic(auto)]

mod building;
mod judging;
mod kinds;
mod laws;
mod limits;
mod numbers;
mod pending;
mod place;
mod progress;
mod recognizing;
mod token;
mod words;

pub use building::build;
pub use judging::{are_known, are_row_texts, are_short_texts};
pub use kinds::has_kinds;
pub use laws::{any_columns, one_expression};
pub use limits::MAX_WORDS;
pub use recognizing::is_expression;
pub use token::Token;
pub use words::{token_of, tokens_of};
