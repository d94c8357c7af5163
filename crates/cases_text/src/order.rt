use crate::fault::Fault;
use crate::filling::filled;
use crate::names::Names;
use crate::splitting::{Word, split_words};
use std::alloc::Global;

/// What a command line asks for.
#[derive(Drop)]
pub struct Order {
    /// The words behind the program's name.
    pub words: Vec<String>,
    /// The file that its standard input is.
    pub input: Option<String>,
    /// The file that its standard output is kept as.
    pub keeps: Option<String>,
    /// Whether it runs beside the next one.
    pub is_beside: bool,
}

/// The order of a command line, with what names stand for in its words.
pub fn read_order(alloc: Global, names: &Names, line: &str) -> Result<Order, Fault> {
    let words = split_words(alloc, line)?;
    let Some((program, rest)) = words.split_first() else {
        return Err(Fault::Text("a command has no words"));
    };
    if program.text.as_str() != "bec" {
        return Err(Fault::Text("the first word of a command is bec"));
    }
    let mut order = Order {
        words: Vec::new(alloc),
        input: None,
        keeps: None,
        is_beside: false,
    };
    let rest = take_ends(alloc, &mut order, names, rest)?;
    for word in rest {
        let text = filled(alloc, names, &word.text)?;
        order.words.push(text)?;
    }
    Ok(order)
}

/// Takes what stands behind the words of a command itself, and answers what is left.
fn take_ends<'w>(
    alloc: Global,
    order: &mut Order,
    names: &Names,
    words: &'w [Word],
) -> Result<&'w [Word], Fault> {
    let mut rest = words;
    for _ in 0..words.len() {
        match take_end(alloc, order, names, rest)? {
            Some(left) => rest = left,
            None => return Ok(rest),
        }
    }
    Ok(rest)
}

/// Takes the last such thing, and answers what is left, or `None` if there is none.
fn take_end<'w>(
    alloc: Global,
    order: &mut Order,
    names: &Names,
    words: &'w [Word],
) -> Result<Option<&'w [Word]>, Fault> {
    match words {
        [rest @ .., last] if is_sign(last, "&") => {
            order.is_beside = true;
            Ok(Some(rest))
        }
        [rest @ .., sign, name] if is_sign(sign, "<") => {
            order.input = Some(filled(alloc, names, &name.text)?);
            Ok(Some(rest))
        }
        [rest @ .., sign, name] if is_sign(sign, ">") => {
            order.keeps = Some(filled(alloc, names, &name.text)?);
            Ok(Some(rest))
        }
        _ => Ok(None),
    }
}

/// Whether a word is this sign, without quotes.
fn is_sign(word: &Word, sign: &'static str) -> bool {
    word.is_plain && word.text.as_str() == sign
}
