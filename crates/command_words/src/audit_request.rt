/// What the words of a command line ask for about keys that signed twice by one index. A directory is the word that
/// names it.
#[derive(Clone, Copy, Drop)]
pub enum AuditRequest<'a> {
    /// `audit`: the keys and indices by which two updates of the store in a directory are signed.
    Audit { directory: &'a str },
    /// `confirm`: whether the two updates that are read are signed so.
    Confirm,
}
