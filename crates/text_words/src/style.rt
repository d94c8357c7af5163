/// How words stand apart.
#[derive(Clone, Copy)]
pub enum Style {
    /// By spaces and tabs alone.
    Spaced,
    /// By spaces and tabs, and besides `(`, `)` and `,` are words by themselves, which need no blanks.
    Punctuated,
}
