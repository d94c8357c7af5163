//! Words of a command line.

use crate::fault::Fault;
use std::alloc::{AllocError, Global};
use std::mem;

/// A word of a command line.
#[derive(Drop)]
pub struct Word {
    /// What it says, without quotes.
    pub text: String,
    /// Whether it stands there without quotes.
    pub is_plain: bool,
}

/// Where a command line is read.
#[derive(Clone, Copy, PartialEq, Eq)]
enum At {
    /// Between words.
    Between,
    /// In a word that has no quotes so far.
    Plain,
    /// In a word that has some, outside of them.
    Quoted,
    /// Between two quotes.
    Inside,
    /// Behind a backslash.
    Escaped,
}

/// What was read of a command line.
#[derive(Drop)]
struct Splitting {
    alloc: Global,
    words: Vec<Word>,
    text: String,
    at: At,
}

/// The words of a command line. Blanks part them; between two quotes `'` a character stands for itself, and behind a
/// backslash outside of quotes too.
pub fn split_words(alloc: Global, line: &str) -> Result<Vec<Word>, Fault> {
    let mut splitting = Splitting {
        alloc,
        words: Vec::new(alloc),
        text: String::new(alloc),
        at: At::Between,
    };
    for next in line.chars() {
        splitting.take(next)?;
    }
    if splitting.at == At::Inside || splitting.at == At::Escaped {
        return Err(Fault::Text("the line ends inside a word"));
    }
    splitting.end_word()?;
    Ok(splitting.words)
}

impl Splitting {
    /// Takes the next character.
    fn take(&mut self, next: char) -> Result<(), AllocError> {
        match (self.at, next) {
            (At::Inside, '\'') => self.at = At::Quoted,
            (At::Inside, _) => self.text.push(next)?,
            (At::Escaped, _) => {
                self.text.push(next)?;
                self.at = At::Quoted;
            }
            (_, '\'') => self.at = At::Inside,
            (_, '\\') => self.at = At::Escaped,
            (_, ' ') => self.end_word()?,
            (At::Between, _) => {
                self.text.push(next)?;
                self.at = At::Plain;
            }
            (_, _) => self.text.push(next)?,
        }
        Ok(())
    }

    /// Ends the word that was begun, if one was.
    fn end_word(&mut self) -> Result<(), AllocError> {
        if self.at == At::Between {
            return Ok(());
        }
        let text = mem::replace(&mut self.text, String::new(self.alloc));
        let is_plain = self.at == At::Plain;
        self.at = At::Between;
        self.words.push(Word { text, is_plain })?;
        Ok(())
    }
}
