ghost use Rattle.std.specs.Prelude.{◌≡◌};
ghost use Rattle.std.specs.List.{list_all};
ghost use Rattle.text_words.specs.Names.{is_a_name, is_spelled_as_name, is_name_byte};

/// Whether bytes are a name: 1 to 32 of `a` to `z`, `0` to `9` and `_`, of which the first is a letter.
pub fn is_name(bytes: &[u8]) -> bool
    ensures { result ≡ is_a_name bytes.now }
{
    bytes.len() <= 32 && has_name_letters(bytes)
}

/// Whether bytes are a name, or would be one but for their number.
pub fn has_name_letters(bytes: &[u8]) -> bool
    ensures { result ≡ is_spelled_as_name bytes.now }
{
    match bytes {
        [] => false,
        [first, rest @ ..] => first.is_ascii_lowercase() && are_name_bytes(rest),
    }
}

fn are_name_bytes(bytes: &[u8]) -> bool
    ensures { result ≡ list_all is_name_byte bytes.now }
{
    bytes.iter().all(|byte| is_name_letter(*byte))
}

fn is_name_letter(byte: u8) -> bool
    ensures { result ≡ is_name_byte byte }
{
    byte.is_ascii_lowercase() || byte.is_ascii_digit() || byte == b'_'
}
