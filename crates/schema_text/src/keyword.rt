/// The first word of a line, which tells what the words after it are. `CHECK` is told apart before, since the words of
/// an expression are read otherwise.
#[derive(Clone, Copy)]
pub(crate) enum Keyword {
    Database,
    Author,
    Table,
    Column,
    Ref,
    Match,
    Unique,
    AtMost,
    Sample,
}
