/// The most bytes of the text of a query.
pub const MAX_QUERY_BYTES: usize = 4_194_304;

/// The most words of a condition, its marks included. A query has no limit of words of its own: what is bounded is how
/// deep the recursion over an expression goes when it is asked and dropped.
pub const MAX_CONDITION_WORDS: usize = expression_text::MAX_WORDS;

/// The most different columns that a condition names, which number by a byte.
pub const MAX_CONDITION_COLUMNS: usize = 256;
