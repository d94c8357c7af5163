use crate::{Cmp, Term};
use update_model::ByteList;

/// A question about one row.
#[derive(Drop)]
pub enum Expr {
    /// Both hold.
    And(Box<Expr>, Box<Expr>),
    /// One or both hold.
    Or(Box<Expr>, Box<Expr>),
    /// It does not hold.
    Not(Box<Expr>),
    /// Two values compare so. With a null side no comparison holds, `!=` neither.
    Compare {
        /// The left side.
        left: Term,
        /// What is asked of the two.
        cmp: Cmp,
        /// The right side.
        right: Term,
    },
    /// The column with this number, from 0, has no value.
    IsNull {
        /// The number of the column.
        column: u8,
    },
    /// A native check of the values in these columns.
    Native {
        /// The number of the check.
        number: u16,
        /// The numbers of the columns, in the order of the arguments.
        columns: ByteList,
    },
}
