/// The most words of an expression that is built, with `(`, `)` and `,` counted. It bounds how deep the recursion over
/// an expression goes when it is asked and dropped, so that a stack of 8 MiB has room for it ten times over.
pub const MAX_WORDS: usize = 4_096;
