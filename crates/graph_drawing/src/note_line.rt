use text_words::ByteString;
use update_model::UpdateId;

/// The note of an update.
#[derive(Drop)]
pub struct NoteLine {
    /// The update's id.
    pub id: UpdateId,
    /// What the note says.
    pub text: ByteString,
}
