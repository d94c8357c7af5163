//! What is told of a step that went otherwise than its case says.

use crate::running::Said;
use cases_text::{Case, Step};
use std::alloc::{AllocError, Global};

/// Tells that a step cannot be done, and why.
pub fn told_fault(
    alloc: Global,
    case: &Case,
    step: &Step,
    what: &'static str,
) -> Result<String, AllocError> {
    let mut told = head_of(alloc, case, step)?;
    writeln!(told, "{what}")?;
    Ok(told)
}

/// Tells what was expected of a command, and what it came to.
pub fn told_said(
    alloc: Global,
    case: &Case,
    step: &Step,
    said: &Said,
) -> Result<String, AllocError> {
    let mut told = head_of(alloc, case, step)?;
    let expected = step.status;
    writeln!(told, "expected, status {expected}:")?;
    for line in &step.wanted {
        let text = line.text;
        writeln!(told, "{text}")?;
    }
    let status = said.status;
    writeln!(told, "printed, status {status}:")?;
    match str::from_utf8(&said.text) {
        Ok(text) => told.push_str(text)?,
        Err(_) => {
            let count = said.text.len();
            writeln!(told, "{count} bytes that are no text")?;
        }
    }
    Ok(told)
}

/// Where a step stands, its case and itself.
fn head_of(alloc: Global, case: &Case, step: &Step) -> Result<String, AllocError> {
    let (file, line, title, text) = (case.file, step.line, case.title, step.text);
    format!(in alloc; "{file}:{line}: {title}\n{text}\n")
}
