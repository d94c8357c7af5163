/// How the update stands in the name of a row that is printed.
#[derive(Clone, Copy)]
pub enum NameStyle {
    /// By its whole id, in 64 lower-case hexadecimal digits.
    Full,
    /// By the last byte of its id, in decimal. The updates of a counterexample are told apart by it.
    Short,
}
