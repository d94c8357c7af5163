//! Words that are queries.

ghost use Rattle.std.specs.Prelude.{◌≡◌};
ghost use Rattle.std.specs.List.{list_all};
ghost use Rattle.text_words.specs.Names.{is_name_byte};
ghost use Rattle.explanations.specs.Run.{query_front};

/// What the query that a word asks has in front of it. To `csv`, a word of nothing but the bytes of names names a
/// table, all of which is asked for.
pub(crate) fn query_front(command: &[u8], word: &[u8]) -> &'static [u8]
    ensures { result.now ≡ query_front command.now word.now }
{
    if command == b"csv".as_slice() && are_name_bytes(word) {
        b"SELECT * FROM "
    } else {
        b""
    }
}

/// Whether a word has none but the bytes of names.
fn are_name_bytes(word: &[u8]) -> bool
    ensures { result ≡ list_all is_name_byte word.now }
{
    word.iter().all(|byte| is_name_byte(*byte))
}

/// Whether names have this byte.
fn is_name_byte(byte: u8) -> bool
    ensures { result ≡ is_name_byte byte }
{
    byte.is_ascii_lowercase() || byte.is_ascii_digit() || byte == b'_'
}
