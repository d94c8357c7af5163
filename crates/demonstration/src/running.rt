//! The run of a demonstration.

ghost use Rattle.std.specs.Prelude.{◌≡◌, ◌+◌, ◌-◌, ◌<◌, ℕ, List, IfOk, OnOk, length};
ghost use Rattle.demonstration.specs.Demos.{IsCounted, IsDemo, drawn_from, keys_of};
ghost use Rattle.demonstration.specs.Sites.{IsCourse, steps};
ghost use Rattle.lms_tree.specs.SecretKey.{SecretData};
ghost use Rattle.numbered_words.specs.Numbered.{word_steps};
ghost use Rattle.rand_core.specs.Steps.{stream_of};
ghost use Rattle.row_check.specs.Checksum.{is_luhn};

use crate::author::{Author, declared_text};
use crate::counts::{DemoCounts, counts_of};
use crate::meeting::meet;
use crate::operations::operations_of;
use demonstration_laws::{heads_follow_all, planned_is_valid, planned_rows, text_declares_tables};
use numbered_words::Words;
use schema_text::one_schema;
use std::alloc::{AllocError, Global};
use update_codec::fields_of_spelling;

/// How many authors there are.
const AUTHORS: u32 = 4;

/// What four replicas come to that make so many updates by turns, of which some meet in between by the words of a
/// number, and all at the end.
///
/// In the last four steps nobody meets. The one error is want of memory.
pub fn demonstrate(alloc: Global, number: u64, count: u32) -> Result<DemoCounts, AllocError>
    ensures counted { IfOk result (λ counts. IsCounted is_luhn counts) }
    ensures made { IfOk result (λ counts. IsDemo number count counts) }
{
    let mut words = Words::new(number);
    let mut authors = begun(alloc, &mut words)?;
    'updates: for k in 0..count {
        make_one(alloc, &mut authors, k, &mut words)?;
        if count - k > AUTHORS {
            meet_by_chance(alloc, &mut authors, &mut words)?;
        }
    }
    ended(alloc, &mut authors)
}

/// What the replicas come to once all have met.
fn ended(alloc: Global, authors: &mut [Author]) -> Result<DemoCounts, AllocError>
    requires { length authors.old ≡ 4 }
    ensures counted { IfOk result (λ counts. IsCounted is_luhn counts) }
    ensures made { (number count : ℕ) → IsCourse (keys_of number) (steps count (count - 4) (count - 4) 0) authors.old
        → IfOk result (λ counts. IsDemo number count counts) }
{
    planned_rows();
    meet_all(alloc, authors)?;
    meet_all(alloc, authors)?;
    counts_of(alloc, &authors[0])
}

/// The four authors, who have made nothing.
fn begun(alloc: Global, words: &mut Words) -> Result<Vec<Author>, AllocError>
    ensures four { IfOk result (λ authors. length authors.items ≡ 4) }
    ensures course { IfOk result (λ authors. IsCourse (drawn_from (stream_of word_steps words.old)) (steps 0 0 0 0)
        authors.items) }
{
    one_schema();
    text_declares_tables();
    let text = declared_text();
    let mut authors = Vec::with_capacity(alloc, AUTHORS as usize)?;
    'authors: for number in 0..AUTHORS {
        let author = Author::create(alloc, number as u8, text, words)?;
        authors.push_reserved(author);
    }
    Ok(authors)
}

/// The author whose turn it is makes the update with this number, from 0.
fn make_one(
    alloc: Global,
    authors: &mut [Author],
    k: u32,
    words: &mut Words,
) -> Result<(), AllocError>
    requires { length authors.old ≡ 4 }
    ensures four { length authors.new ≡ 4 }
    ensures course { (keys : List SecretData) (since : ℕ) → k < since + 4
        → IsCourse keys (steps k since since 0) authors.old
        → OnOk result (IsCourse keys (steps (k + 1) since since 0) authors.new) }
{
    heads_follow_all();
    planned_is_valid();
    fields_of_spelling();
    let author = k % AUTHORS;
    let one = &mut authors[author as usize];
    let ops = operations_of(alloc, author, k / AUTHORS, one.last, words)?;
    one.store.len(); // what every replica keeps
    one.lengths(); // what its types keep
    one.make(alloc, ops, words)
}

/// Two authors meet, where the next word says so, which then says who.
fn meet_by_chance(
    alloc: Global,
    authors: &mut [Author],
    words: &mut Words,
) -> Result<(), AllocError>
    requires { length authors.old ≡ 4 }
    ensures four { length authors.new ≡ 4 }
    ensures course { (keys : List SecretData) (count since met : ℕ)
        → IsCourse keys (steps count since met 0) authors.old
        → OnOk result (IsCourse keys (steps count count count 0) authors.new) }
{
    let word = words.word();
    if word % 4 != 0 {
        return Ok(());
    }
    let first = (word >> 8) % 4;
    let second = (first + 1 + (word >> 16) % 3) % 4;
    meet(alloc, authors, first as usize, second as usize)
}

/// The first author meets each of the others.
fn meet_all(alloc: Global, authors: &mut [Author]) -> Result<(), AllocError>
    requires { length authors.old ≡ 4 }
    ensures four { length authors.new ≡ 4 }
    ensures course { (keys : List SecretData) (count since met : ℕ)
        → IsCourse keys (steps count since met 0) authors.old
        → OnOk result (IsCourse keys (steps count since count 4) authors.new) }
{
    meet(alloc, authors, 0, 1)?;
    meet(alloc, authors, 0, 2)?;
    meet(alloc, authors, 0, 3)
}
