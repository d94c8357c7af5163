//! Questions that a database asks of one row: expressions, their value, and checks that a host program brings.
//!
//! An [`Expr`] is a question over the columns of one row, put together with AND, OR and NOT from comparisons, IS
//! NULL and native checks. [`eval`] answers it. A native check is a question that expressions cannot put, such as a
//! checksum: it has a number, and its meaning is a [`Relation`]. A [`Native`] keeps a host program's code, of a type
//! that [`Checks`] that relation, so that whatever is proved of checked rows is proved of the relation, and not of
//! the code. [`Luhn`] is the relation that is shipped, and the code that answers it.
//!
//! ```text
//! let native: Native<Luhn, Luhn> = Native::new(Luhn);
//! let short = Expr::Compare { left: Term::Length(0), cmp: Cmp::Le, right: Term::Literal(Value::Int(8)) };
//! eval(alloc, &short, row, &native)?       // whether the text in column 0 has at most 8 bytes
//! ```
//!
//! What an expression asks, apart from where its parts lie in memory, is a tree (`Trees` of the definitions). A tree
//! that fits the kinds of columns ([`Kind`]) may be asked of each row that has values of these kinds.
//!
//! It reads no text of expressions and knows no tables.
#![tactic(auto)]

mod cmp;
mod comparing;
mod evaluation;
mod expr;
mod fitting;
mod kind;
mod laws;
mod luhn;
mod native;
mod relation;
mod side;
mod term;

pub use cmp::Cmp;
pub use comparing::compare;
pub use evaluation::eval;
pub use expr::Expr;
pub use fitting::fits;
pub use kind::Kind;
pub use laws::{kinds_fit_rows, trees_hold};
pub use luhn::{Luhn, passes_luhn};
pub use native::{Checks, Native};
pub use relation::Relation;
pub use term::Term;
