//! Lines, words, names and values: what schemas, transactions, queries and scripts are read from.
//!
//! A text is cut into lines by [`next_line`], and a line into words by [`plain_words`] or [`expression_words`].
//! What a word says is told by [`is_name`], [`integer_of`], [`literal_of`] and their kin, and [`push_literal`] prints
//! a value as it is read. All is by bytes: whether a text is UTF-8 is for callers to test.
//!
//! ```text
//! let mut rest = text;
//! while let Some((line, after)) = next_line(rest) {
//!     if !is_passed_over(line) {
//!         let words = plain_words(alloc, line)?;      // None: a quoted text in it is bad
//!     }
//!     rest = after;
//! }
//! ```
//!
//! It knows no keywords but NULL, TRUE and FALSE, and no limits but those of names and integers.
#![tactic(auto)]

mod byte_string;
mod hexadecimal;
mod integers;
mod laws;
mod lines;
mod literal;
mod literals;
mod names;
mod printing;
mod quoting;
mod splitting;
mod style;
mod word;

pub use byte_string::ByteString;
pub use hexadecimal::{bytes_of_hex, row_name_of};
pub use integers::integer_of;
pub use laws::{
    integers_are_as_printed, lines_are_the_text, values_are_read_again, words_are_by_rule,
};
pub use lines::next_line;
pub use literal::Literal;
pub use literals::literal_of;
pub use names::{has_name_letters, is_name};
pub use printing::{push_literal, push_quoted};
pub use splitting::{
    expression_words, first_word, is_passed_over, plain_words, skip_blanks, words,
};
pub use style::Style;
pub use word::Word;
