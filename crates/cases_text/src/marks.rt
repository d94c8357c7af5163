//! What the first character of a line says of it.

/// What a line of a case is.
#[derive(Clone, Copy)]
pub(crate) enum Mark<'a> {
    /// A title, or more about a case.
    Note(&'a str),
    /// The name of a file that is given.
    Given(&'a str),
    /// A line of a file, with a line feed.
    Line(&'a str),
    /// A command.
    Command(&'a str),
    /// What is done to the world.
    World(&'a str),
    /// A line of standard input.
    Input(&'a str),
    /// A status.
    Status(&'a str),
    /// A line that is expected at its place.
    Wanted(&'a str),
    /// A line that is expected in any order with those beside it.
    Loose(&'a str),
}

/// What a line is.
pub(crate) fn mark_of(line: &str) -> Mark<'_> {
    if let Some(text) = marked(line, "#") {
        return Mark::Note(text);
    }
    if let Some(text) = marked(line, "=") {
        return Mark::Given(text);
    }
    if let Some(text) = marked(line, "|") {
        return Mark::Line(text);
    }
    if let Some(text) = marked(line, "$") {
        return Mark::Command(text);
    }
    if let Some(text) = marked(line, "@") {
        return Mark::World(text);
    }
    if let Some(text) = marked(line, ">") {
        return Mark::Input(text);
    }
    expected_mark(line)
}

/// What a line is that says what is expected.
fn expected_mark(line: &str) -> Mark<'_> {
    if let Some(text) = marked(line, "?") {
        return Mark::Status(text);
    }
    if let Some(text) = marked(line, "~") {
        return Mark::Loose(text);
    }
    match line.strip_prefix("\\") {
        Some(text) => Mark::Wanted(text),
        None => Mark::Wanted(line),
    }
}

/// What stands behind a mark and one blank, or behind a mark that nothing follows.
pub(crate) fn marked<'a>(line: &'a str, mark: &'static str) -> Option<&'a str> {
    let rest = line.strip_prefix(mark)?;
    if rest.is_empty() {
        return Some(rest);
    }
    rest.strip_prefix(" ")
}
