//! Parts of a text that a byte ends.

ghost use Rattle.std.specs.Prelude.{◌≡◌, [], ◌∷◌, ◌<◌, ◌==◌, length, position, IfSome, IfNone};
ghost use Rattle.explanations.specs.Parts.{parts_of};

/// The first part of a text without the byte that ends it, and what comes behind that. There is none in the empty text.
pub(crate) fn first_part(text: &[u8], end: u8) -> Option<(&[u8], &[u8])>
    ensures first { IfSome result (λ read. parts_of end text.now ≡ read.0.now ∷ parts_of end read.1.now) }
    ensures shorter { IfSome result (λ read. length read.1.now < length text.now) }
    ensures none { IfNone result (parts_of end text.now ≡ []) }
{
    if text.is_empty() {
        return None;
    }
    match place_of_end(text, end) {
        None => Some((text, &[])),
        Some(place) => Some((&text[..place], &text[place + 1..])),
    }
}

/// Where the first byte stands that ends a part.
fn place_of_end(text: &[u8], end: u8) -> Option<usize>
    ensures { result ≡ position (λ byte. byte == end) text.now }
{
    text.iter().position(|byte| *byte == end)
}
