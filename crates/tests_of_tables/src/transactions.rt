//! A transaction that is printed and read again.

use row_check::{Luhn, Native};
use schema::Schema;
use schema_text::{SchemaError, read_schema};
use std::alloc::Global;
use txn_printing::{are_tables_named, print_txn};
use txn_text::read_txn;

/// Lists, and tasks in them.
const TASKS: &str =
    "DATABASE tasks\nTABLE list DELETABLE\nCOLUMN title TEXT 1 40\nCOLUMN cap INT 0 9\n\
SAMPLE \"Home\" 9\nTABLE task DELETABLE\nCOLUMN title TEXT 1 1024\nCOLUMN prio INT 0 9\n\
COLUMN card TEXT 1 32 NULL\nREF list list CASCADE\nREF after task SETNULL NULL\n\
CHECK prio < 9 OR LEN title > 3\nCHECK card IS NULL OR NATIVE 1 card\nMATCH prio <= list.cap\n\
SAMPLE \"Buy\" 3 NULL\n";

/// A transaction with blanks, escapes and ends of lines that it need not have.
const GIVEN: &[u8] =
    b" INSERT\tlist  \"Ho\\\"m\\x41\" 9 \n\nINSERT task \"Buy\" 3 NULL $1 NULL\r\nDELETE 00112233445566778899aabbccddeeff00112233445566778899aabbccddeeff:0";

/// The same as it is printed.
const PRINTED: &[u8] =
    b"INSERT list \"Ho\\\"mA\" 9\nINSERT task \"Buy\" 3 NULL $1 NULL\nDELETE 00112233445566778899aabbccddeeff00112233445566778899aabbccddeeff:0\n";

/// The schema of tasks.
fn tasks(alloc: Global) -> Result<Schema, SchemaError> {
    let native: Native<Luhn, Luhn> = Native::new(Luhn);
    read_schema(alloc, TASKS.as_bytes(), &native)
}

/// What is printed of a transaction, if it is one.
fn printed(alloc: Global, schema: &Schema, text: &[u8]) -> Option<Vec<u8>> {
    let ops = read_txn(alloc, schema, text).ok()?;
    print_txn(alloc, schema, ops.as_slice()).ok()
}

/// Whether a transaction and what is printed of it are printed as the second text.
fn is_printed(alloc: Global, given: &[u8], wanted: &[u8]) -> Option<bool> {
    let schema = tasks(alloc).ok()?;
    if !are_tables_named(&schema) {
        return None;
    }
    let once = printed(alloc, &schema, given)?;
    let again = printed(alloc, &schema, &once)?;
    Some(once.as_slice() == wanted && again.as_slice() == wanted)
}

#[test]
fn operations_are_printed_and_read_again(rt: HostRuntime) {
    assert_eq!(rt; is_printed(rt.alloc(), GIVEN, PRINTED), Some(true));
}
