//! Ids that end in numbers.

use update_model::UpdateId;

/// An id that ends in this number.
pub fn id(number: u32) -> UpdateId {
    let mut bytes = [0; 32];
    bytes[28..].copy_from_slice(&number.to_be_bytes());
    UpdateId(bytes)
}
