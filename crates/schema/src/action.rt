/// What becomes of a row when the row that it refers to goes.
#[derive(Clone, Copy)]
pub enum Action {
    /// `RESTRICT`: a row that is referred to may not be deleted.
    Restrict,
    /// `CASCADE`: the row goes too.
    Cascade,
    /// `SETNULL`: the row stays, and its reference is shown as null.
    SetNull,
}
