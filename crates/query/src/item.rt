//! The columns and the keys of a query.

ghost use Rattle.std.specs.Prelude.{◌≡◌, ◌++◌, IfOk, OnOk};
ghost use Rattle.query.specs.Columns.{own_items, items_at, items_of, item_named, row_item, falls, keys_of, key_named};
ghost use Rattle.query.specs.Columns.{keys_by};
ghost use Rattle.query.specs.Grammar.{mark_of};

use crate::mark::{Mark, mark_of};
use crate::source::{Source, columns_of, slot_of};
use expression_text::Token;
use schema::{Column, Schema};
use std::alloc::{AllocError, Global};
use update_model::ByteList;

/// A column of an answer.
#[derive(Drop)]
pub struct Item {
    /// Its name, as it was asked for.
    pub name: ByteList,
    /// Where its values are found.
    pub source: Source,
}

/// What an answer is ordered by.
#[derive(Clone, Copy)]
pub struct Key {
    /// Where its values are found.
    pub source: Source,
    /// Whether the order falls, so that null comes last.
    pub descending: bool,
}

/// The columns that these words ask for.
pub(crate) fn items_of(
    alloc: Global,
    schema: &Schema,
    table: u8,
    words: &[Token],
) -> Result<Vec<Item>, AllocError>
    ensures { IfOk result (λ items. items.items ≡ items_of schema.now.tables table words.now) }
{
    let mut items = Vec::new(alloc);
    for word in words {
        push_items(alloc, schema, table, &mut items, word)?;
    }
    Ok(items)
}

/// Adds what a word asks for.
fn push_items(
    alloc: Global,
    schema: &Schema,
    table: u8,
    items: &mut Vec<Item>,
    word: &Token,
) -> Result<(), AllocError>
    ensures { OnOk result (items.new.items ≡ items.old.items ++ items_at schema.now.tables table word.now) }
{
    match mark_of(word) {
        Mark::Star => {
            items.push(row_item(alloc)?)?;
            push_own(alloc, items, columns_of(schema, table))
        }
        Mark::Row => Ok(items.push(row_item(alloc)?)?),
        Mark::Name => push_named(alloc, schema, table, items, word),
        _ => Ok(()),
    }
}

/// The name of the row.
fn row_item(alloc: Global) -> Result<Item, AllocError>
    ensures { IfOk result (λ item. item ≡ row_item) }
{
    Ok(Item {
        name: copied(alloc, b"ROW")?,
        source: Source::Name,
    })
}

fn copied(alloc: Global, bytes: &[u8]) -> Result<ByteList, AllocError>
    ensures { IfOk result (λ copy. copy ≡ bytes.now) }
{
    Ok(ByteList::from_vec(Vec::from_slice(alloc, bytes)?))
}

/// Adds each column.
fn push_own(alloc: Global, items: &mut Vec<Item>, columns: &[Column]) -> Result<(), AllocError>
    ensures { OnOk result (items.new.items ≡ items.old.items ++ own_items 0 columns.now) }
{
    for (n, column) in columns.iter().enumerate() {
        let name = copied(alloc, column.name.as_slice())?;
        items.push(Item {
            name,
            source: Source::Own(n),
        })?;
    }
    Ok(())
}

/// Adds the column that a word names.
fn push_named(
    alloc: Global,
    schema: &Schema,
    table: u8,
    items: &mut Vec<Item>,
    word: &Token,
) -> Result<(), AllocError>
    ensures { OnOk result (items.new.items ≡ items.old.items ++ item_named schema.now.tables table word.now) }
{
    let Token::Column(name) = word else {
        return Ok(());
    };
    let Some(slot) = slot_of(schema, table, name.as_slice()) else {
        return Ok(());
    };
    items.push(Item {
        name: copied(alloc, name.as_slice())?,
        source: slot.source,
    })?;
    Ok(())
}

/// The keys that these words ask for.
pub(crate) fn keys_of(
    alloc: Global,
    schema: &Schema,
    table: u8,
    words: &[Token],
) -> Result<Vec<Key>, AllocError>
    ensures { IfOk result (λ keys. keys.items ≡ keys_of schema.now.tables table words.now) }
{
    let mut keys = Vec::new(alloc);
    let mut left = words;
    while let [word, rest @ ..] = left {
        push_key(schema, table, &mut keys, word, falls(rest))?;
        left = rest;
    }
    Ok(keys)
}

/// Adds the key that a word is.
fn push_key(
    schema: &Schema,
    table: u8,
    keys: &mut Vec<Key>,
    word: &Token,
    descending: bool,
) -> Result<(), AllocError>
    ensures { OnOk result (keys.new.items ≡ keys.old.items ++ keys_by schema.now.tables table word.now
        (mark_of word.now) descending) }
{
    match mark_of(word) {
        Mark::Name => push_key_named(schema, table, keys, word, descending),
        _ => Ok(()),
    }
}

fn push_key_named(
    schema: &Schema,
    table: u8,
    keys: &mut Vec<Key>,
    word: &Token,
    descending: bool,
) -> Result<(), AllocError>
    ensures { OnOk result (keys.new.items ≡ keys.old.items ++ key_named schema.now.tables table word.now descending) }
{
    let Token::Column(name) = word else {
        return Ok(());
    };
    let Some(slot) = slot_of(schema, table, name.as_slice()) else {
        return Ok(());
    };
    keys.push(Key {
        source: slot.source,
        descending,
    })?;
    Ok(())
}

/// Whether `DESC` comes next.
fn falls(words: &[Token]) -> bool
    ensures { result ≡ falls words.now }
{
    match words {
        [] => false,
        [word, ..] => matches!(mark_of(word), Mark::Desc),
    }
}
