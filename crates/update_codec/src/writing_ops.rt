//! Writing numbers, values and operations.

ghost use Rattle.std.specs.Prelude.{◌≡◌, ◌++◌, ◌≤◌, length, All, OnOk};
ghost use Rattle.std.specs.Int.{w16, w32, w64, to_be_bytes};
ghost use Rattle.std.specs.List.{flat_map};
ghost use Rattle.update_codec.specs.Spelling as spell;
ghost use Rattle.update_codec.specs.Spelling.{IsCounted};

use byteorder::{BigEndian, ByteOrder};
use std::alloc::AllocError;
use update_model::{Op, RowName, TextValue, Value};

pub(crate) fn put_u16(out: &mut Vec<u8>, number: u16) -> Result<(), AllocError>
    ensures { OnOk result (out.new.items ≡ out.old.items ++ to_be_bytes w16 number) }
{
    let mut field = [0; 2];
    BigEndian::write_u16(&mut field, number);
    out.extend_from_slice(&field)
}

pub(crate) fn put_u32(out: &mut Vec<u8>, number: u32) -> Result<(), AllocError>
    ensures { OnOk result (out.new.items ≡ out.old.items ++ to_be_bytes w32 number) }
{
    let mut field = [0; 4];
    BigEndian::write_u32(&mut field, number);
    out.extend_from_slice(&field)
}

fn put_u64(out: &mut Vec<u8>, number: u64) -> Result<(), AllocError>
    ensures { OnOk result (out.new.items ≡ out.old.items ++ to_be_bytes w64 number) }
{
    let mut field = [0; 8];
    BigEndian::write_u64(&mut field, number);
    out.extend_from_slice(&field)
}

fn put_row(out: &mut Vec<u8>, row: &RowName) -> Result<(), AllocError>
    ensures { OnOk result (out.new.items ≡ out.old.items ++ spell.row row.now) }
{
    out.extend_from_slice(&row.update.0)?;
    put_u16(out, row.index)
}

/// The length of a text, and its bytes.
pub(crate) fn put_text(out: &mut Vec<u8>, text: &TextValue) -> Result<(), AllocError>
    ensures { OnOk result (out.new.items ≡ out.old.items ++ spell.text text.now) }
{
    let bytes = text.as_slice();
    put_u16(out, bytes.len() as u16)?;
    out.extend_from_slice(bytes)
}

fn put_value(out: &mut Vec<u8>, value: &Value) -> Result<(), AllocError>
    ensures { OnOk result (out.new.items ≡ out.old.items ++ spell.value value.now) }
{
    match value {
        Value::Null => out.extend_from_slice(&[0]),
        Value::Int(number) => {
            out.push(1)?;
            put_u64(out, number.cast_unsigned())
        }
        Value::Text(text) => {
            out.push(2)?;
            put_text(out, text)
        }
        Value::Flag(flag) => out.extend_from_slice(&[3, u8::from(*flag)]),
        Value::Row(row) => {
            out.push(4)?;
            put_row(out, row)
        }
        Value::Own(index) => {
            out.push(5)?;
            put_u16(out, *index)
        }
    }
}

fn put_values(out: &mut Vec<u8>, values: &[Value]) -> Result<(), AllocError>
    ensures { OnOk result (out.new.items ≡ out.old.items ++ flat_map spell.value values.now) }
{
    for value in values {
        put_value(out, value)?;
    }
    Ok(())
}

fn put_op(out: &mut Vec<u8>, op: &Op) -> Result<(), AllocError>
    requires { IsCounted op.now }
    ensures { OnOk result (out.new.items ≡ out.old.items ++ spell.op op.now) }
{
    match op {
        Op::Insert { table, values } => {
            let values = values.as_slice();
            out.push(1)?;
            out.push(*table)?;
            out.push(values.len() as u8)?;
            put_values(out, values)
        }
        Op::Delete { row } => {
            out.push(2)?;
            put_row(out, row)
        }
    }
}

/// The number of operations, and the operations.
pub(crate) fn put_ops(out: &mut Vec<u8>, ops: &[Op]) -> Result<(), AllocError>
    requires few { length ops.now ≤ 65535 }
    requires counted { All IsCounted ops.now }
    ensures { OnOk result (out.new.items ≡ out.old.items ++ (to_be_bytes w16 (length ops.now) ++ flat_map spell.op
        ops.now)) }
{
    put_u16(out, ops.len() as u16)?;
    for op in ops {
        put_op(out, op)?;
    }
    Ok(())
}
