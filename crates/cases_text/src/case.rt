/// What a line adds to a file that a case gives.
#[derive(Clone, Copy)]
pub enum Content<'a> {
    /// A text, and a line feed behind it.
    Line(&'a str),
    /// A text alone.
    Bare(&'a str),
    /// Bytes, as hexadecimal digits.
    Raw(&'a str),
    /// What is in another file.
    File(&'a str),
}

/// A line of a file that a case gives.
#[derive(Clone, Copy)]
pub struct Portion<'a> {
    /// How often it is added.
    pub times: u32,
    /// What it adds.
    pub content: Content<'a>,
}

/// A file that is given to commands as input.
#[derive(Drop)]
pub struct Given<'a> {
    /// The file of cases that it stands in.
    pub file: &'a str,
    /// What it is called.
    pub name: &'a str,
    /// What is in it.
    pub content: Vec<Portion<'a>>,
}

/// A line that is expected of a command.
#[derive(Clone, Copy)]
pub struct Wanted<'a> {
    /// What it says, in which names may stand.
    pub text: &'a str,
    /// Whether it may change places with the lines beside it of which the same holds.
    pub in_any_order: bool,
}

/// Who does a step.
#[derive(Clone, Copy, PartialEq, Eq)]
pub enum Kind {
    /// The program, as a command line says.
    Command,
    /// The world around it.
    World,
}

/// One step of a case.
#[derive(Drop)]
pub struct Step<'a> {
    /// The number of its line in its file.
    pub line: usize,
    /// Who does it.
    pub kind: Kind,
    /// What is done.
    pub text: &'a str,
    /// The lines of its standard input.
    pub input: Vec<&'a str>,
    /// The lines that are expected of it.
    pub wanted: Vec<Wanted<'a>>,
    /// The status that is expected of it.
    pub status: u8,
}

/// A case: what is done from nothing, step by step, and what is expected.
#[derive(Drop)]
pub struct Case<'a> {
    /// The file that it stands in.
    pub file: &'a str,
    /// The number of its first line.
    pub line: usize,
    /// What it shows.
    pub title: &'a str,
    /// The files that it gives.
    pub givens: Vec<Given<'a>>,
    /// What is done.
    pub steps: Vec<Step<'a>>,
}

/// All cases of some files, in order, and the files that each gives to all of its cases.
#[derive(Drop)]
pub struct Book<'a> {
    /// What is given to all cases of a file.
    pub shared: Vec<Given<'a>>,
    /// The cases.
    pub cases: Vec<Case<'a>>,
}
