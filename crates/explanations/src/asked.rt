/// What was asked of the program where it refused.
#[derive(Clone, Copy)]
pub struct Asked<'a> {
    /// The first word, which names the command.
    pub command: &'a str,
    /// The directory of the command, or either of two where one of them is meant.
    pub directory: &'a str,
    /// What else the command names: another directory, or an address.
    pub other: &'a str,
    /// The exit status.
    pub status: u8,
    /// The text that the command read or asked, whose lines are shown.
    pub text: &'a [u8],
}
