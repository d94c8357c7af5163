ghost use Rattle.std.specs.Prelude.{◌≡◌, [], ◌∷◌, ◌<◌, length, position, IfSome, IfNone};
ghost use Rattle.text_words.specs.Lines.{lines_of, Begins, LosesCr, is_lf};

/// The first line of a text, and what comes after it. There is none where the text is empty.
///
/// A line ends at an LF, and a CR directly before that LF is passed over. The last LF may be missing.
pub fn next_line(text: &[u8]) -> Option<(&[u8], &[u8])>
    ensures first { IfSome result (λ read. lines_of text.now ≡ read.0.now ∷ lines_of read.1.now) }
    // the text is the line, what ends it, and the rest
    ensures begins { IfSome result (λ read. Begins text.now read.0.now read.1.now) }
    ensures shorter { IfSome result (λ read. length read.1.now < length text.now) }
    ensures none { IfNone result (text.now ≡ []) }
{
    if text.is_empty() {
        return None;
    }
    match place_of_lf(text) {
        None => Some((text, &[])),
        Some(place) => Some((without_cr(&text[..place]), &text[place + 1..])),
    }
}

fn place_of_lf(text: &[u8]) -> Option<usize>
    ensures { result ≡ position is_lf text.now }
{
    text.iter().position(|byte| *byte == b'\n')
}

/// What stands before an LF, without one CR at its end.
fn without_cr(line: &[u8]) -> &[u8]
    ensures { LosesCr line.now result.now }
{
    match line {
        [front @ .., b'\r'] => front,
        _ => line,
    }
}
