use table_model::VoidLine;

/// An update that does nothing.
#[derive(Clone, Copy)]
pub struct Voided {
    /// The position of that update.
    pub position: u32,
    /// Its line.
    pub line: VoidLine,
}
