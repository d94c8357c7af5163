//! What a run of the program printed, explained.

ghost use Rattle.std.specs.Prelude.{◌≡◌, [], ◌∷◌, ◌++◌, drop, false, map, slice_get, string_bytes};
ghost use Rattle.std.specs.Prelude.{IfOk, OnErr, OnOk, option_copied};
ghost use Rattle.explanations.specs.Explained.{explained, setting_of};
ghost use Rattle.explanations.specs.Parts.{parts_of, stands_among};
ghost use Rattle.explanations.specs.Run.{cr_lf_note, directory_among, is_an_option, is_done_line, is_told, limit_of};
ghost use Rattle.explanations.specs.Run.{note_of, of_queries, of_schemas, of_stores, said_of_run, setting_by, text_of};
ghost use Rattle.explanations.specs.Run.{Says, told_from, told_of, with_values, word_placed};
ghost use Rattle.text_words.specs.Lines.{lines_of};

use crate::asked::Asked;
use crate::explaining::explain;
use crate::fronts::behind;
use crate::parts::first_part;
use crate::queries::query_front;
use crate::text_lines::has_cr;
use crate::words::is_among;
use bec_bytes::{Sink, write_all_of};
use std::alloc::{AllocError, Global};
use text_words::next_line;

/// A run of the program.
#[derive(Clone, Copy)]
pub struct Run<'a> {
    /// The words of the command line.
    pub words: &'a [String],
    /// The directory that is meant, and empty where it is the first that the words name.
    pub directory: &'a str,
    /// The exit status.
    pub status: u8,
    /// What was read.
    pub read: &'a [u8],
    /// The lines that were printed and that a refusal or the end of a session may be.
    pub heard: &'a [u8],
}

/// Says what a run means that was refused, as far as the sink takes it. Where memory runs out it gives up, and says
/// nothing.
pub fn tell_run<K: Sink>(alloc: Global, errors: &mut K, run: &Run) -> Result<(), AllocError>
    ensures says { OnOk result (Says (K.held errors.old) (K.held errors.new) (K.faults errors.old) (K.faults errors.new)
        (said_of_run (map string_bytes run.now.words.now) run.now.directory.now run.now.status run.now.read.now
        run.now.heard.now)) }
    ensures silent { OnErr result (errors.new ≡ errors.old) }
{
    let text = explain_run(alloc, run)?;
    write_text(errors, text.as_slice());
    Ok(())
}

/// Writes a text as far as the sink takes it.
fn write_text<K: Sink>(errors: &mut K, text: &[u8])
    ensures { Says (K.held errors.old) (K.held errors.new) (K.faults errors.old) (K.faults errors.new) text.now }
{
    let _ = write_all_of(errors, text);
}

/// What is said of a run. It gives up where memory runs out.
pub fn explain_run(alloc: Global, run: &Run) -> Result<Vec<u8>, AllocError>
    ensures { IfOk result (λ text. text.items ≡ said_of_run (map string_bytes run.now.words.now) run.now.directory.now
        run.now.status run.now.read.now run.now.heard.now) }
{
    let mut out = Vec::new(alloc);
    push_note(&mut out, word_at(run.words, 0), run.read)?;
    push_told(alloc, &mut out, run)?;
    Ok(out)
}

/// Adds what is said of a schema whose lines end in CR LF, where a command reads one.
fn push_note(out: &mut Vec<u8>, command: &str, read: &[u8]) -> Result<(), AllocError>
    ensures { OnOk result (out.new.items ≡ out.old.items ++ note_of command.now read.now) }
{
    if is_of_schemas(command.as_bytes()) && has_cr(read) {
        return push_cr_lf(out);
    }
    Ok(())
}

/// Adds what is said of a schema whose lines end in CR LF.
fn push_cr_lf(out: &mut Vec<u8>) -> Result<(), AllocError>
    ensures { OnOk result (out.new.items ≡ out.old.items ++ cr_lf_note) }
{
    out.extend_from_slice(CR_LF)
}

/// Adds what is said of a run, where it was refused.
fn push_told(alloc: Global, out: &mut Vec<u8>, run: &Run) -> Result<(), AllocError>
    ensures { OnOk result (out.new.items ≡ out.old.items ++ told_of (map string_bytes run.now.words.now)
        run.now.directory.now run.now.status run.now.read.now run.now.heard.now) }
{
    if run.status == 0 {
        return Ok(());
    }
    push_refusals(alloc, out, run)?;
    Ok(())
}

/// Adds what is said of a run that was refused.
fn push_refusals(alloc: Global, out: &mut Vec<u8>, run: &Run) -> Result<(), AllocError>
    ensures { OnOk result (out.new.items ≡ out.old.items ++ told_from false (setting_by (map string_bytes
        run.now.words.now) run.now.directory.now run.now.status run.now.read.now) (lines_of run.now.heard.now)) }
{
    let command = word_at(run.words, 0);
    let mut text = Vec::new(alloc);
    push_text(&mut text, command, run)?;
    let directory = directory_of(alloc, command, run)?;
    let asked = Asked {
        command,
        directory: directory.as_str(),
        other: word_at(run.words, 2),
        status: run.status,
        text: text.as_slice(),
    };
    push_all(alloc, out, run.heard, &asked)
}

/// What is said of a schema whose lines end in CR LF.
const CR_LF: &[u8] =
    b"bec: the lines of the schema end in CR LF. The same lines with LF are another database\n";

/// Adds what each line means that was heard, or else the status.
fn push_all(alloc: Global, out: &mut Vec<u8>, heard: &[u8], asked: &Asked) -> Result<(), AllocError>
    ensures { OnOk result (out.new.items ≡ out.old.items ++ told_from false (setting_of asked.now)
        (lines_of heard.now)) }
{
    let mut told = false;
    let mut rest = heard;
    while let Some((line, after)) = next_line(rest) {
        if is_explained(line, asked.command) {
            push_explained(alloc, out, line, asked)?;
            told = true;
        }
        rest = after;
    }
    if told {
        return Ok(());
    }
    push_explained(alloc, out, b"", asked)?;
    Ok(())
}

/// Adds what a line means.
fn push_explained(
    alloc: Global,
    out: &mut Vec<u8>,
    said: &[u8],
    asked: &Asked,
) -> Result<(), AllocError>
    ensures { OnOk result (out.new.items ≡ out.old.items ++ explained said.now (setting_of asked.now)) }
{
    let text = explain(alloc, said, asked)?;
    out.extend_from_slice(text.as_slice())
}

/// Whether a line is a refusal, or the end of a session of `serve` that was not done.
fn is_explained(line: &[u8], command: &str) -> bool
    ensures { result ≡ is_told command.now line.now }
{
    line.starts_with(b"! ") || command.as_bytes() == b"serve".as_slice() && !is_done(line)
}

/// Whether a line tells that a session was done.
fn is_done(line: &[u8]) -> bool
    ensures { result ≡ is_done_line line.now }
{
    match third_word(line) {
        Some(word) => word == b"done".as_slice(),
        None => false,
    }
}

/// The third word of a line.
fn third_word(line: &[u8]) -> Option<&[u8]>
    ensures { option_copied result ≡ slice_get (parts_of 32 line.now) 2 }
{
    let (_, second) = first_part(line, b' ')?;
    let (_, third) = first_part(second, b' ')?;
    let (word, _) = first_part(third, b' ')?;
    Some(word)
}

/// The directory that is meant: that which the caller names, or else that of the words, of which `merge` has two.
fn directory_of(alloc: Global, command: &str, run: &Run) -> Result<String, AllocError>
    ensures { IfOk result (λ text. string_bytes text ≡ directory_among (map string_bytes run.now.words.now) command.now
        run.now.directory.now) }
{
    let first = word_at(run.words, 1);
    let directory = run.directory;
    if !directory.is_empty() {
        return format!(in alloc; "{directory}");
    }
    if command.as_bytes() == b"merge".as_slice() {
        let second = word_at(run.words, 2);
        return format!(in alloc; "{first} or {second}");
    }
    format!(in alloc; "{first}")
}

/// Adds the text that a command read or asked.
fn push_text(out: &mut Vec<u8>, command: &str, run: &Run) -> Result<(), AllocError>
    ensures { OnOk result (out.new.items ≡ out.old.items ++ text_of (map string_bytes run.now.words.now) command.now
        run.now.read.now) }
{
    let command = command.as_bytes();
    if is_of_queries(command) {
        let asked = word_at(run.words, 2);
        return push_asked(out, query_front(command, asked.as_bytes()), asked);
    }
    if is_of_stores(command) {
        return out.extend_from_slice(behind_length(run.read));
    }
    out.extend_from_slice(run.read)
}

/// What stands behind a length of four bytes.
fn behind_length(read: &[u8]) -> &[u8]
    ensures { result.now ≡ drop 4 read.now }
{
    behind(read, 4)
}

/// Whether a command reads a schema alone.
fn is_of_schemas(command: &[u8]) -> bool
    ensures { result ≡ stands_among command.now of_schemas }
{
    is_among(command, OF_SCHEMAS)
}

/// Whether a command reads a store behind its length.
fn is_of_stores(command: &[u8]) -> bool
    ensures { result ≡ stands_among command.now of_stores }
{
    is_among(command, OF_STORES)
}

/// Whether the second word of a command is a query, or a table.
fn is_of_queries(command: &[u8]) -> bool
    ensures { result ≡ stands_among command.now of_queries }
{
    is_among(command, OF_QUERIES)
}

/// Adds a text that was asked, behind what it has in front, as a line.
fn push_asked(out: &mut Vec<u8>, front: &[u8], text: &str) -> Result<(), AllocError>
    ensures { OnOk result (out.new.items ≡ out.old.items ++ (front.now ++ (text.now ++ 10 ∷ []))) }
{
    out.extend_from_slice(front)?;
    out.extend_from_slice(text.as_bytes())?;
    out.extend_from_slice(b"\n")
}

/// How many bytes of what a command reads are kept for showing a line: one more than it may have.
pub fn limit_for(words: &[String]) -> usize
    ensures { result ≡ limit_of (map string_bytes words.now) }
{
    let command = word_at(words, 0).as_bytes();
    if command == b"apply".as_slice() {
        4_194_305
    } else if command == b"world".as_slice() {
        16_777_217
    } else {
        65_541
    }
}

/// A word that is no option, by its place among such, or the empty one.
fn word_at(words: &[String], place: usize) -> &str
    ensures { result.now ≡ word_placed (map string_bytes words.now) place }
{
    let mut left = place;
    let mut ended = false;
    let mut takes = false;
    let mut rest = words;
    while let [word, later @ ..] = rest {
        let bytes = word.as_bytes();
        if takes {
            takes = false;
        } else if !ended && is_option(bytes) {
            ended = bytes == b"--".as_slice();
            takes = takes_value(bytes);
        } else if left == 0 {
            return word.as_str();
        } else {
            left -= 1;
        }
        rest = later;
    }
    ""
}

/// Whether a word is an option.
fn is_option(word: &[u8]) -> bool
    ensures { result ≡ is_an_option word.now }
{
    word.starts_with(b"-") && word != b"-".as_slice()
}

/// Whether the next word is the value of this one.
fn takes_value(word: &[u8]) -> bool
    ensures { result ≡ stands_among word.now with_values }
{
    is_among(word, WITH_VALUES)
}

/// The options whose value is the next word.
const WITH_VALUES: &[u8] = b"--note --height --width --every --sessions";

/// The commands that read a schema alone.
const OF_SCHEMAS: &[u8] = b"init check";

/// The commands that read a store behind its length.
const OF_STORES: &[u8] = b"dump draw log show who diff page status schema";

/// The commands whose second word is a query, or a table.
const OF_QUERIES: &[u8] = b"query watch csv";
