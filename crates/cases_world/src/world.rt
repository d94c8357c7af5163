//! The world of a case: its directories, the random words that are to come, and what names and files it has.

use crate::parts::Parts;
use crate::trouble::Planned;
use cases_text::{Book, Case, Content, Fault, Given, Names, bytes_of};
use numbered_words::Words;
use std::alloc::{AllocError, Global};

/// How deep files may stand in one another, with the outermost.
const DEPTH: u32 = 8;

/// An output that was kept as a file.
#[derive(Drop)]
struct Output {
    name: String,
    bytes: Vec<u8>,
}

/// What is planned for the next command.
#[derive(Drop)]
pub struct Plan {
    /// Which calls on disks fail.
    pub disks: Option<Planned>,
    /// The number of the call of its input that fails, or 0.
    pub input: u32,
    /// The number of the call of its output that fails, or 0.
    pub output: u32,
    /// The number of the call of its link that fails, or 0.
    pub link: u32,
}

impl Plan {
    /// Nothing fails.
    pub fn new() -> Plan {
        Plan {
            disks: None,
            input: 0,
            output: 0,
            link: 0,
        }
    }
}

/// What commands act on.
#[derive(Drop)]
pub struct Stage {
    /// The allocator.
    pub alloc: Global,
    /// The directories.
    pub parts: Parts,
    /// The random words that are to come.
    pub random: Words,
    /// What is planned for the next command.
    pub plan: Plan,
}

impl Stage {
    /// These directories, with the random words of 0, and nothing is planned.
    pub fn new(alloc: Global, parts: Parts) -> Stage {
        Stage {
            alloc,
            parts,
            random: Words::new(0),
            plan: Plan::new(),
        }
    }
}

/// The world of a case.
#[derive(Drop)]
pub struct World<'a> {
    /// The allocator.
    pub alloc: Global,
    /// What commands act on.
    pub stage: Stage,
    /// What names stand for.
    pub names: Names<'a>,
    /// The outputs that were kept.
    outputs: Vec<Output>,
}

impl<'a> World<'a> {
    /// The world in which each case begins: there is nothing.
    pub fn new(alloc: Global) -> World<'a> {
        World {
            alloc,
            stage: Stage::new(alloc, Parts::new(alloc)),
            names: Names::new(alloc),
            outputs: Vec::new(alloc),
        }
    }

    /// Keeps an output as a file.
    pub fn keep(&mut self, name: String, bytes: Vec<u8>) -> Result<(), AllocError> {
        self.outputs.push(Output { name, bytes })?;
        Ok(())
    }

    /// What is in a file: in the output that was kept so last, in a file of the case, or in one of all cases.
    pub fn file(&self, book: &Book, case: &Case, name: &str) -> Result<Vec<u8>, Fault> {
        self.file_at(book, case, name, DEPTH)
    }

    /// What is in a file that other files are added to, so deep.
    fn file_at(&self, book: &Book, case: &Case, name: &str, depth: u32) -> Result<Vec<u8>, Fault> {
        if let Some(bytes) = self.output(name) {
            return Ok(bytes.to_vec(self.alloc)?);
        }
        let given = given_of(book, case, name)?;
        let mut bytes = Vec::new(self.alloc);
        if depth == 0 {
            return Err(Fault::Text("files stand in one another too deep"));
        }
        for portion in &given.content {
            let piece = match portion.content {
                Content::File(other) => self.file_at(book, case, other, depth - 1)?,
                content => bytes_of(self.alloc, &self.names, &content)?,
            };
            push_times(&mut bytes, portion.times, &piece)?;
        }
        Ok(bytes)
    }

    /// The output that was kept so last.
    fn output(&self, name: &str) -> Option<&[u8]> {
        for output in self.outputs.iter().rev() {
            if output.name.as_str() == name {
                return Some(output.bytes.as_slice());
            }
        }
        None
    }
}

/// Adds a piece so often.
fn push_times(bytes: &mut Vec<u8>, times: u32, piece: &[u8]) -> Result<(), AllocError> {
    for _ in 0..times {
        bytes.extend_from_slice(piece)?;
    }
    Ok(())
}

/// The file of this name that a case gives, or that is given to all cases of its file.
fn given_of<'g, 'a>(
    book: &'g Book<'a>,
    case: &'g Case<'a>,
    name: &str,
) -> Result<&'g Given<'a>, Fault> {
    if let Some(given) = find_given(&case.givens, case.file, name) {
        return Ok(given);
    }
    match find_given(&book.shared, case.file, name) {
        Some(given) => Ok(given),
        None => Err(Fault::Text("there is no such file")),
    }
}

/// The last file of this name that is given in a file of cases.
fn find_given<'g, 'a>(givens: &'g [Given<'a>], file: &str, name: &str) -> Option<&'g Given<'a>> {
    for given in givens.iter().rev() {
        if given.file == file && given.name == name {
            return Some(given);
        }
    }
    None
}
