//! Answers of queries over members.

ghost use Rattle.std.specs.Prelude.{◌≡◌, ◌⊎◌, Err, IfErr, IfOk};
ghost use Rattle.outcomes.specs.Rules.{nodes_of, rules_of};
ghost use Rattle.tuple_state.specs.State.{IsStateOf};
ghost use Rattle.csv_text.specs.Csv.{csv_text};
ghost use Rattle.query.specs.Outcome.{data_of as query_data};
ghost use Rattle.query_answer.specs.Answers.{AnswerData, IsAnswerOver};
ghost use Rattle.std.specs.List.{list_all};
ghost use Rattle.text_words.specs.Names.{is_name_byte};
ghost use Rattle.outcomes.specs.declared.refusal.Refusal.TheVariants.{Memory};
ghost use Rattle.look_commands.specs.Queries.{AnswersQuery, query_for, query_front};

use crate::members::Members;
use csv_text::csv;
use outcomes::Refusal;
use query::{Query, read_query};
use query_answer::answer;
use std::alloc::{AllocError, Global};

/// A table, or the answer of a query, over what members show, as comma-separated values.
pub(crate) fn answer_text(alloc: Global, text: &str, members: Members) -> Result<Vec<u8>, Refusal>
    requires { IsStateOf (rules_of members.schema.now) (nodes_of members.graph.now) members.tables.now }
    ensures { AnswersQuery (query_for text.now) members.entry.schema.now members.entry.graph.now result
        ⊎ (result ≡ Err Memory) }
{
    let asked = query_for(alloc, text.as_bytes())?;
    let query = read_query(alloc, members.schema, &asked)?;
    csv_over(alloc, members, &query)
}

/// The query that a text is, or that asks for all of the table that it names.
fn query_for(alloc: Global, text: &[u8]) -> Result<Vec<u8>, AllocError>
    ensures { IfOk result (λ query. query.items ≡ query_for text.now) }
{
    let mut query = Vec::from_slice(alloc, query_front(text))?;
    query.extend_from_slice(text)?;
    Ok(query)
}

/// What such a query has in front of the text.
fn query_front(text: &[u8]) -> &'static [u8]
    ensures { result.now ≡ query_front text.now }
{
    if are_name_bytes(text) {
        b"SELECT * FROM "
    } else {
        b""
    }
}

/// Whether a text has none but the bytes of names.
fn are_name_bytes(text: &[u8]) -> bool
    ensures { result ≡ list_all is_name_byte text.now }
{
    text.iter().all(|byte| is_name_byte(*byte))
}

/// Whether names have this byte.
fn is_name_byte(byte: u8) -> bool
    ensures { result ≡ is_name_byte byte }
{
    byte.is_ascii_lowercase() || byte.is_ascii_digit() || byte == b'_'
}

/// The answer of a query over members, as comma-separated values.
fn csv_over(alloc: Global, members: Members, query: &Query) -> Result<Vec<u8>, Refusal>
    requires { IsStateOf (rules_of members.schema.now) (nodes_of members.graph.now) members.tables.now }
    ensures answer { IfOk result (λ text. (answer : AnswerData) × IsAnswerOver (rules_of members.entry.schema.now)
        (nodes_of members.entry.graph.now) (query_data query.now) answer × (text.items ≡ csv_text answer)) }
    ensures memory { IfErr result (λ refusal. refusal ≡ Memory) }
{
    let found = answer(alloc, members.native, members.schema, query, members.tables)?;
    let lines = csv(alloc, &found)?;
    Ok(lines)
}
