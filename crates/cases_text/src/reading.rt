//! Files of cases, read line by line.

use crate::case::{Book, Case, Content, Given, Kind, Portion, Step, Wanted};
use crate::fault::Fault;
use crate::marks::{Mark, mark_of, marked};
use std::alloc::Global;

/// Where a text of cases is read.
#[derive(Clone, Copy)]
pub struct Place<'a> {
    /// The file.
    pub file: &'a str,
    /// The number of the line in it.
    pub line: usize,
}

/// In which block a line stands.
#[derive(Clone, Copy, PartialEq, Eq)]
enum Block {
    /// In none so far.
    Outside,
    /// In one that gives files to all cases.
    Shared,
    /// In a case.
    Case,
    /// In a file of a case.
    File,
}

/// Reads a row of files of cases, each behind a line `== ` with its name. In `place` stands how far it came.
pub fn read_book<'a>(
    alloc: Global,
    text: &'a str,
    place: &mut Place<'a>,
) -> Result<Book<'a>, Fault> {
    let mut book = Book {
        shared: Vec::new(alloc),
        cases: Vec::new(alloc),
    };
    let mut block = Block::Outside;
    for line in text.split('\n') {
        if let Some(name) = line.strip_prefix("== ") {
            *place = Place {
                file: name,
                line: 0,
            };
            block = Block::Outside;
        } else {
            place.line = place.line.saturating_add(1);
            block = read_line(alloc, &mut book, *place, block, line)?;
        }
    }
    Ok(book)
}

/// Reads a line that stands behind lines of a block, and answers in which block it stands.
fn read_line<'a>(
    alloc: Global,
    book: &mut Book<'a>,
    place: Place<'a>,
    block: Block,
    line: &'a str,
) -> Result<Block, Fault> {
    if line.is_empty() {
        return Ok(Block::Outside);
    }
    match block {
        Block::Outside => begin_block(alloc, book, place, line),
        Block::Shared => {
            read_shared(alloc, book, place, line)?;
            Ok(block)
        }
        Block::Case | Block::File => match book.cases.last_mut() {
            Some(case) => read_in_case(alloc, case, place, block, line),
            None => Err(Fault::Text("there is no case")),
        },
    }
}

/// Begins the block that a line is the first of.
fn begin_block<'a>(
    alloc: Global,
    book: &mut Book<'a>,
    place: Place<'a>,
    line: &'a str,
) -> Result<Block, Fault> {
    match mark_of(line) {
        Mark::Note(title) => {
            book.cases.push(Case {
                file: place.file,
                line: place.line,
                title,
                givens: Vec::new(alloc),
                steps: Vec::new(alloc),
            })?;
            Ok(Block::Case)
        }
        Mark::Given(_) => {
            read_shared(alloc, book, place, line)?;
            Ok(Block::Shared)
        }
        _ => Err(Fault::Text("a block begins with # or =")),
    }
}

/// Reads a line of a block that gives files to all cases.
fn read_shared<'a>(
    alloc: Global,
    book: &mut Book<'a>,
    place: Place<'a>,
    line: &'a str,
) -> Result<(), Fault> {
    if let Some(name) = marked(line, "=") {
        return begin_given(alloc, &mut book.shared, place, name);
    }
    match book.shared.last_mut() {
        Some(given) => read_content(given, line),
        None => Err(Fault::Text("there is no file")),
    }
}

/// Begins a file that is given.
fn begin_given<'a>(
    alloc: Global,
    givens: &mut Vec<Given<'a>>,
    place: Place<'a>,
    name: &'a str,
) -> Result<(), Fault> {
    givens.push(Given {
        file: place.file,
        name,
        content: Vec::new(alloc),
    })?;
    Ok(())
}

/// What a line adds to a file that is given, if it does.
fn portion_of(line: &str) -> Option<Portion<'_>> {
    let (times, rest) = match marked(line, "*") {
        Some(text) => {
            let (number, rest) = text.split_once(' ')?;
            (number.parse().ok()?, rest)
        }
        None => (1, line),
    };
    let content = content_of(rest)?;
    Some(Portion { times, content })
}

/// What a line adds to a file once.
fn content_of(line: &str) -> Option<Content<'_>> {
    if let Some(text) = marked(line, "|") {
        return Some(Content::Line(text));
    }
    if let Some(digits) = marked(line, "x") {
        return Some(Content::Raw(digits));
    }
    if let Some(name) = marked(line, "+") {
        return Some(Content::File(name));
    }
    let text = marked(line, "-")?;
    Some(Content::Bare(text))
}

/// Adds a line to a file that is given.
fn read_content<'a>(given: &mut Given<'a>, line: &'a str) -> Result<(), Fault> {
    match portion_of(line) {
        Some(portion) => {
            given.content.push(portion)?;
            Ok(())
        }
        None => Err(Fault::Text("a line of a file begins with |, -, x, + or *")),
    }
}

/// Reads a line of a case behind its first, and answers in which block it stands.
fn read_in_case<'a>(
    alloc: Global,
    case: &mut Case<'a>,
    place: Place<'a>,
    block: Block,
    line: &'a str,
) -> Result<Block, Fault> {
    if block == Block::File {
        if let (Some(given), Some(portion)) = (case.givens.last_mut(), portion_of(line)) {
            given.content.push(portion)?;
            return Ok(Block::File);
        }
    }
    match mark_of(line) {
        Mark::Given(name) => {
            begin_given(alloc, &mut case.givens, place, name)?;
            Ok(Block::File)
        }
        mark => {
            read_step(alloc, case, place, mark)?;
            Ok(Block::Case)
        }
    }
}

/// Reads a line of a case that is of no file.
fn read_step<'a>(
    alloc: Global,
    case: &mut Case<'a>,
    place: Place<'a>,
    mark: Mark<'a>,
) -> Result<(), Fault> {
    match mark {
        Mark::Note(_) => Ok(()),
        Mark::Command(text) => push_step(alloc, case, place, Kind::Command, text),
        Mark::World(text) => push_step(alloc, case, place, Kind::World, text),
        _ => match case.steps.last_mut() {
            Some(step) => add_to_step(step, mark),
            None => Err(Fault::Text("nothing was done yet that this line is about")),
        },
    }
}

/// Begins a step.
fn push_step<'a>(
    alloc: Global,
    case: &mut Case<'a>,
    place: Place<'a>,
    kind: Kind,
    text: &'a str,
) -> Result<(), Fault> {
    case.steps.push(Step {
        line: place.line,
        kind,
        text,
        input: Vec::new(alloc),
        wanted: Vec::new(alloc),
        status: 0,
    })?;
    Ok(())
}

/// Adds a line to the step that it is about.
fn add_to_step<'a>(step: &mut Step<'a>, mark: Mark<'a>) -> Result<(), Fault> {
    if step.kind == Kind::World {
        return Err(Fault::Text("nothing is expected of a line that begins with @"));
    }
    match mark {
        Mark::Input(text) => step.input.push(text)?,
        Mark::Status(text) => match text.parse() {
            Ok(status) => step.status = status,
            Err(_) => return Err(Fault::Text("a status is a number up to 255")),
        },
        Mark::Wanted(text) => push_wanted(step, text, false)?,
        Mark::Loose(text) => push_wanted(step, text, true)?,
        _ => return Err(Fault::Text("a line of a file stands behind its name")),
    }
    Ok(())
}

/// Adds a line that is expected.
fn push_wanted<'a>(step: &mut Step<'a>, text: &'a str, in_any_order: bool) -> Result<(), Fault> {
    step.wanted.push(Wanted { text, in_any_order })?;
    Ok(())
}
