ghost use Rattle.std.specs.Prelude.{◌≡◌};
ghost use Rattle.row_check.specs.Comparisons.{accepts};

use std::cmp::Ordering;

/// What a comparison asks of its two sides.
#[derive(Clone, Copy)]
pub enum Cmp {
    /// `=`: the sides are equal.
    Eq,
    /// `!=`: they are not.
    Ne,
    /// `<`: the left side is below the right one.
    Lt,
    /// `<=`: it is not above it.
    Le,
    /// `>`: it is above it.
    Gt,
    /// `>=`: it is not below it.
    Ge,
}

impl Cmp {
    /// Whether the comparison is true of two sides that stand in this order.
    pub(crate) fn accepts(self, order: Ordering) -> bool
        ensures { result ≡ accepts self order }
    {
        match self {
            Cmp::Eq => order.is_eq(),
            Cmp::Ne => order.is_ne(),
            Cmp::Lt => order.is_lt(),
            Cmp::Le => order.is_le(),
            Cmp::Gt => order.is_gt(),
            Cmp::Ge => order.is_ge(),
        }
    }
}
