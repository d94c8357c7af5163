/// The most bytes of a text.
pub const MAX_TRANSACTION_BYTES: usize = 4_194_304;
