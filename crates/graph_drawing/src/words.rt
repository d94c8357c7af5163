//! Texts in a picture.

ghost use Rattle.std.specs.Prelude.{◌≡◌, ◌∷◌, ◌++◌, OnOk, codes};
ghost use Rattle.std.specs.Fmt.{decimal};
ghost use Rattle.std.specs.Int.{to_be_bytes, w32};
ghost use Rattle.std.specs.List.{flat_map};
ghost use Rattle.hex.specs.Hex.{encode_lower};
ghost use Rattle.table_text.specs.Names.{id_text};
ghost use Rattle.table_text.specs.Operations.{table_word};
ghost use Rattle.graph_drawing.specs.Words.{around, clipped, goes_on, key_digits, key_end, marked, reason_words};
ghost use Rattle.graph_drawing.specs.Words.{short_id, short_name, short_operation, short_value};

use itoa::Buffer;
use schema::Schema;
use std::alloc::AllocError;
use table_model::reason::{
    CHECK_FALSE, MATCH_FALSE, MISFIT, NO_TABLE, NO_TARGET, NOT_DELETABLE, NOT_OWNER, RESTRICTED,
};
use table_text::{NameStyle, push_value};
use update_model::{AuthorKey, Op, RowName, UpdateId, Value};

/// Adds a number in decimal.
pub fn push_number(out: &mut Vec<u8>, number: u64) -> Result<(), AllocError>
    ensures { OnOk result (out.new.items ≡ out.old.items ++ decimal number) }
{
    let mut buffer = Buffer::new();
    out.extend_from_slice(buffer.format(number).as_bytes())
}

/// Adds a number between two texts.
#[tactic(auto, unfolding(crate::specs::Words::around))]
pub(crate) fn push_around(
    out: &mut Vec<u8>,
    before: &[u8],
    number: u64,
    after: &[u8],
) -> Result<(), AllocError>
    ensures { OnOk result (out.new.items ≡ out.old.items ++ around before.now number after.now) }
{
    out.extend_from_slice(before)?;
    push_number(out, number)?;
    out.extend_from_slice(after)
}

/// Adds an id in 64 digits.
pub fn push_id(out: &mut Vec<u8>, id: &UpdateId) -> Result<(), AllocError>
    ensures { OnOk result (out.new.items ≡ out.old.items ++ id_text id.now) }
{
    let mut digits = [0u8; 64];
    let _ = hex::encode_to_slice(id.0, &mut digits);
    out.extend_from_slice(&digits)
}

/// Adds the first digits of an id, so many.
pub fn push_short_id(out: &mut Vec<u8>, digits: usize, id: &UpdateId) -> Result<(), AllocError>
    ensures { OnOk result (out.new.items ≡ out.old.items ++ short_id digits id.now) }
{
    let mut all = [0u8; 64];
    let _ = hex::encode_to_slice(id.0, &mut all);
    out.extend_from_slice(&all[..digits.min(64)])
}

/// Adds a key in 112 digits: its types, its identifier and its root.
#[tactic(auto, unfolding(crate::specs::Words::key_digits))]
pub fn push_key(out: &mut Vec<u8>, key: &AuthorKey) -> Result<(), AllocError>
    ensures { OnOk result (out.new.items ≡ out.old.items ++ key_digits key.now) }
{
    push_word(out, key.lms)?;
    push_word(out, key.ots)?;
    push_ident(out, &key.ident)?;
    push_root(out, &key.root)
}

/// Adds the word of a type in eight digits.
fn push_word(out: &mut Vec<u8>, word: u32) -> Result<(), AllocError>
    ensures { OnOk result (out.new.items ≡ out.old.items ++ encode_lower (to_be_bytes w32 word)) }
{
    let mut digits = [0u8; 8];
    let _ = hex::encode_to_slice(word.to_be_bytes(), &mut digits);
    out.extend_from_slice(&digits)
}

/// Adds the identifier of a key in 32 digits.
fn push_ident(out: &mut Vec<u8>, ident: &[u8; 16]) -> Result<(), AllocError>
    ensures { OnOk result (out.new.items ≡ out.old.items ++ encode_lower ident.now) }
{
    let mut digits = [0u8; 32];
    let _ = hex::encode_to_slice(ident, &mut digits);
    out.extend_from_slice(&digits)
}

/// Adds the root of a key in 64 digits.
fn push_root(out: &mut Vec<u8>, root: &[u8; 32]) -> Result<(), AllocError>
    ensures { OnOk result (out.new.items ≡ out.old.items ++ encode_lower root.now) }
{
    let mut digits = [0u8; 64];
    let _ = hex::encode_to_slice(root, &mut digits);
    out.extend_from_slice(&digits)
}

/// Adds the last eight digits of a key.
pub fn push_key_end(out: &mut Vec<u8>, key: &AuthorKey) -> Result<(), AllocError>
    ensures { OnOk result (out.new.items ≡ out.old.items ++ key_end key.now) }
{
    let mut digits = [0u8; 8];
    let _ = hex::encode_to_slice(&key.root[28..32], &mut digits);
    out.extend_from_slice(&digits)
}

/// Adds the name of a row, with so many digits of its id.
fn push_short_name(out: &mut Vec<u8>, digits: usize, name: &RowName) -> Result<(), AllocError>
    ensures { OnOk result (out.new.items ≡ out.old.items ++ short_name digits name.now) }
{
    push_short_id(out, digits, &name.update)?;
    out.push(b':')?;
    push_number(out, u64::from(name.index))
}

/// Adds a value, where rows have short names.
fn push_short_value(out: &mut Vec<u8>, digits: usize, value: &Value) -> Result<(), AllocError>
    ensures { OnOk result (out.new.items ≡ out.old.items ++ short_value digits value.now) }
{
    match value {
        Value::Row(name) => push_short_name(out, digits, name),
        _ => push_value(out, NameStyle::Full, value),
    }
}

/// Adds values, each after a blank.
fn push_short_values(out: &mut Vec<u8>, digits: usize, values: &[Value]) -> Result<(), AllocError>
    ensures { OnOk result (out.new.items ≡ out.old.items ++ flat_map (λ value. 32 ∷ short_value digits value)
        values.now) }
{
    for value in values {
        out.push(b' ')?;
        push_short_value(out, digits, value)?;
    }
    Ok(())
}

/// Adds an operation as it stands in a transaction, where the names of rows have so many digits of their ids.
pub fn push_short_operation(
    out: &mut Vec<u8>,
    digits: usize,
    schema: &Schema,
    op: &Op,
) -> Result<(), AllocError>
    ensures { OnOk result (out.new.items ≡ out.old.items ++ short_operation digits schema.now.tables op.now) }
{
    match op {
        Op::Insert { table, values } => {
            out.extend_from_slice(b"INSERT ")?;
            push_table_word(out, schema, *table)?;
            push_short_values(out, digits, values.as_slice())
        }
        Op::Delete { row } => {
            out.extend_from_slice(b"DELETE ")?;
            push_short_name(out, digits, row)
        }
    }
}

/// Adds the name of the table with this number, or the number if the schema has no such table.
fn push_table_word(out: &mut Vec<u8>, schema: &Schema, number: u8) -> Result<(), AllocError>
    ensures { OnOk result (out.new.items ≡ out.old.items ++ table_word schema.now.tables number) }
{
    if number < schema.tables() {
        out.extend_from_slice(schema.table(number).name.as_slice())
    } else {
        push_number(out, u64::from(number))
    }
}

/// Adds so many characters of a text, as they are written in XML, and two dots if there are more.
pub(crate) fn push_clipped(
    out: &mut Vec<u8>,
    text: &[u8],
    mut count: usize,
) -> Result<(), AllocError>
    ensures { OnOk result (out.new.items ≡ out.old.items ++ clipped text.now count) }
{
    for byte in text {
        if goes_on(*byte) {
            out.push(*byte)?;
        } else if count == 0 {
            return out.extend_from_slice(b"..");
        } else {
            push_marked(out, *byte)?;
            count -= 1;
        }
    }
    Ok(())
}

/// Whether a byte goes on with a character that began before it.
fn goes_on(byte: u8) -> bool
    ensures { result ≡ goes_on byte }
{
    (128..192).contains(&byte)
}

/// Adds one byte of a text, as it is written in XML.
fn push_marked(out: &mut Vec<u8>, byte: u8) -> Result<(), AllocError>
    ensures { OnOk result (out.new.items ≡ out.old.items ++ marked byte) }
{
    match byte {
        b'&' => out.extend_from_slice(b"&amp;"),
        b'<' => out.extend_from_slice(b"&lt;"),
        b'>' => out.extend_from_slice(b"&gt;"),
        _ => out.extend_from_slice(&[byte]),
    }
}

/// Why an update does nothing.
pub fn reason_words(reason: u8) -> &'static [u8]
    ensures { result.now ≡ reason_words reason }
{
    match reason {
        NO_TABLE => b"void: there is no such table",
        MISFIT => b"void: values do not fit the columns",
        CHECK_FALSE => b"void: a CHECK is false",
        NO_TARGET => b"void: a row that it names is not there",
        MATCH_FALSE => b"void: a MATCH is false",
        NOT_DELETABLE => b"void: a row cannot be deleted",
        NOT_OWNER => b"void: it deletes another author's row",
        RESTRICTED => b"void: a row names the deleted one",
        _ => b"void: another row has this value",
    }
}
