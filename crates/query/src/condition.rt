//! Conditions.

ghost use Rattle.std.specs.Prelude.{◌≡◌, ◌↔◌, ◌≤◌, ◌^◌, Err, None, IfOk, IfErr, IsTrue, OnOk};
ghost use Rattle.row_check.specs.Kinds.{FitsKinds, HasKinds};
ghost use Rattle.row_check.specs.Trees.{holds_tree, tree_of};
ghost use Rattle.query.specs.Columns.{names_of, with_name, is_among, slots_of, seen_kind as kind_for, seen_kinds};
ghost use Rattle.query.specs.Columns.{kind_named};
ghost use Rattle.query.specs.Conditions.{IsCondition, stuck_at, refused, crowded_at, wrong_in, misfit_in, misfit};
ghost use Rattle.query.specs.Conditions.{misfits, misfits_named, is_unknown, is_reference, is_of_text, are_alike};
ghost use Rattle.query.specs.Conditions.{kind_of, left_after, place_seen};
ghost use Rattle.query.specs.Outcome.{IsStop};
ghost use Rattle.query.specs.Queries.{ReadsCondition, condition_data};

use crate::pieces::is_text;
use crate::source::{Slot, slot_of};
use crate::stop::{Stop, Wrong};
use crate::turn::{Expected, Stand};
use crate::{MAX_CONDITION_COLUMNS, MAX_CONDITION_WORDS, QueryKind};
use expression_text::{Token, are_row_texts, build, has_kinds, is_expression};
use row_check::{Checks, Expr, Kind, Native, Relation, eval, kinds_fit_rows, trees_hold};
use schema::Schema;
use std::alloc::{AllocError, Global};
use std::marker::Model;
use update_model::{TextValue, Value};

/// A condition: an expression over the columns that it names, which number in the order in which they are first named.
///
/// It may be asked of any values of the kinds that it sees. Of a reference it sees whether it is there: TRUE or null.
#[derive(Drop)]
pub struct Condition {
    expr: Expr,
    slots: Vec<Slot>,
}

impl Model for Condition {
    ghost use Rattle.query.specs.Data.{ConditionData, coded_condition, IsSound};
    ghost use Rattle.row_check.specs.Trees.{tree_of};

    ghost Value = { ConditionData };

    ghost coded = { coded_condition };

    ghost view = { λ condition. record { tree = tree_of condition.expr; slots = condition.slots.items } };

    ghost invariant = { λ condition. IsSound (record { tree = tree_of condition.expr; slots = condition.slots.items }) };
}

impl Condition {
    /// The columns that the condition names, each once, in the order in which they number.
    pub fn slots(&self) -> &[Slot]
        ensures { result.now ≡ self.now.slots }
    {
        self.slots.as_slice()
    }

    /// Whether the condition is true of these values, one for each of its [`Condition::slots`]. Each is of the kind
    /// that is seen there, or null. Only a native check takes memory.
    pub fn holds<L: Relation, C: Checks<L>>(
        &self,
        alloc: Global,
        native: &Native<L, C>,
        values: &[Value],
    ) -> Result<bool, AllocError>
        requires kinds { FitsKinds (seen_kinds self.now.slots) values.now }
        ensures { IfOk result (λ answer. answer ≡ holds_tree L.answer values.now self.now.tree) }
    {
        kinds_fit_rows();
        trees_hold();
        eval(alloc, &self.expr, values, native)
    }
}

/// Whether words are a condition.
pub(crate) fn is_condition(words: &[Token]) -> bool
    ensures { IsTrue result ↔ IsCondition words.now }
{
    words.len() <= MAX_CONDITION_WORDS && is_expression(words) && are_row_texts(words)
}

/// What is wrong with words, which number from here, that are no condition.
pub(crate) fn stuck_at(at: usize, words: &[Token]) -> Wrong
    requires { at ≤ 2 ^ 63 }
    ensures { result ≡ stuck_at at words.now }
{
    let mut stand = Stand::begun();
    for (read, word) in words.iter().enumerate() {
        if read >= MAX_CONDITION_WORDS {
            return Wrong {
                kind: QueryKind::TooLong,
                at: at + read,
            };
        }
        match stand.after(word) {
            Some(next) => stand = next,
            None => {
                return Wrong {
                    kind: refused(word),
                    at: at + read,
                };
            }
        }
    }
    Wrong {
        kind: QueryKind::UnknownWord,
        at: at + words.len(),
    }
}

/// Why a word may not stand here.
fn refused(word: &Token) -> QueryKind
    ensures { result ≡ refused word.now }
{
    match word {
        Token::Bad => QueryKind::NotAValue,
        _ => QueryKind::UnknownWord,
    }
}

fn is_reference(kind: Option<Kind>) -> bool
    ensures { result ≡ is_reference kind }
{
    matches!(kind, Some(Kind::Reference))
}

fn is_of_text(kind: Option<Kind>) -> bool
    ensures { result ≡ is_of_text kind }
{
    matches!(kind, Some(Kind::Text))
}

/// Whether both are one kind, and none of references.
fn are_alike(left: Option<Kind>, right: Option<Kind>) -> bool
    ensures { result ≡ are_alike left right }
{
    matches!(
        (left, right),
        (Some(Kind::Int), Some(Kind::Int))
            | (Some(Kind::Text), Some(Kind::Text))
            | (Some(Kind::Flag), Some(Kind::Flag))
    )
}

/// The kind of the column that a word names.
pub(crate) fn kind_named(schema: &Schema, table: u8, name: &[u8]) -> Option<Kind>
    ensures { result ≡ kind_named schema.now.tables table name.now }
{
    let slot = slot_of(schema, table, name)?;
    Some(slot.kind)
}

/// The kind of what a word begins.
fn kind_of(schema: &Schema, table: u8, word: &Token) -> Option<Kind>
    ensures { result ≡ kind_of (kind_named schema.now.tables table) word.now }
{
    match word {
        Token::Column(name) => kind_named(schema, table, name.as_slice()),
        Token::Integer(_) | Token::Len => Some(Kind::Int),
        Token::Text(_) => Some(Kind::Text),
        Token::Flag(_) => Some(Kind::Flag),
        _ => None,
    }
}

/// Whether a word names a column that is not there.
pub(crate) fn is_unknown(schema: &Schema, table: u8, word: &Token) -> bool
    ensures { result ≡ is_unknown (kind_named schema.now.tables table) word.now }
{
    match word {
        Token::Column(name) => !kind_named(schema, table, name.as_slice()).is_some(),
        _ => false,
    }
}

/// Whether a word may not follow a column of this kind.
fn misfits_named(left: Option<Kind>, word: &Token) -> bool
    ensures { result ≡ misfits_named left word.now }
{
    match word {
        Token::Sign(_) => is_reference(left),
        _ => false,
    }
}

/// Whether a word of this kind may not stand here, behind a left side of this kind.
fn misfits(turn: Expected, left: Option<Kind>, found: Option<Kind>, word: &Token) -> bool
    ensures { result ≡ misfits turn left found word.now }
{
    match turn {
        Expected::Length | Expected::RightLength => !is_of_text(found),
        Expected::Right => !are_alike(left, found),
        Expected::Argument | Expected::Arguments => is_reference(found),
        Expected::Named => misfits_named(left, word),
        _ => false,
    }
}

/// Where what is seen at this word stands.
fn place_seen(turn: Expected, at: usize) -> usize
    ensures { result ≡ place_seen turn at }
{
    match turn {
        Expected::Named => at.saturating_sub(1),
        _ => at,
    }
}

/// What is wrong with a word, if anything.
fn misfit(
    schema: &Schema,
    table: u8,
    turn: Expected,
    left: Option<Kind>,
    at: usize,
    word: &Token,
) -> Option<Wrong>
    ensures { result ≡ misfit (kind_named schema.now.tables table) turn left at word.now }
{
    if is_unknown(schema, table, word) {
        return Some(Wrong {
            kind: QueryKind::UnknownColumn,
            at,
        });
    }
    if misfits(turn, left, kind_of(schema, table, word), word) {
        return Some(Wrong {
            kind: QueryKind::TypesDiffer,
            at: place_seen(turn, at),
        });
    }
    None
}

/// The kind of the left side after a word more.
fn left_after(turn: Expected, left: Option<Kind>, found: Option<Kind>) -> Option<Kind>
    ensures { result ≡ left_after turn left found }
{
    match turn {
        Expected::Operand => found,
        Expected::Length => Some(Kind::Int),
        _ => left,
    }
}

/// The first of these words, which number from here, that is not there or of another kind than is wanted.
fn misfit_in(schema: &Schema, table: u8, at: usize, words: &[Token]) -> Option<Wrong>
    requires { at ≤ 2 ^ 63 }
    ensures { result ≡ misfit_in (kind_named schema.now.tables table) at words.now }
{
    let mut stand = Stand::begun();
    let mut left = None;
    for (read, word) in words.iter().enumerate() {
        if let Some(wrong) = misfit(schema, table, stand.turn, left, at + read, word) {
            return Some(wrong);
        }
        left = left_after(stand.turn, left, kind_of(schema, table, word));
        stand = stand.after(word).unwrap_or(stand);
    }
    None
}

/// The columns that a condition names, each once, in the order in which they are first named.
fn names_of(alloc: Global, words: &[Token]) -> Result<Vec<TextValue>, AllocError>
    ensures { IfOk result (λ names. names.items ≡ names_of words.now) }
{
    let mut names = Vec::new(alloc);
    for word in words {
        push_name(alloc, &mut names, word)?;
    }
    Ok(names)
}

/// Adds the column that a word names, if it is new.
fn push_name(alloc: Global, names: &mut Vec<TextValue>, word: &Token) -> Result<(), AllocError>
    ensures { OnOk result (names.new.items ≡ with_name names.old.items word.now) }
{
    match word {
        Token::Column(name)
            if is_text(name.as_slice()) && !is_among(names.as_slice(), name.as_slice()) => {
            let bytes = Vec::from_slice(alloc, name.as_slice())?;
            Ok(names.push(TextValue::from_vec(bytes))?)
        }
        _ => Ok(()),
    }
}

/// Whether a name is one of these.
fn is_among(names: &[TextValue], name: &[u8]) -> bool
    ensures { result ≡ is_among names.now name.now }
{
    names.iter().any(|other| name == other.as_slice())
}

/// What is wrong with words, which number from here, that name these columns: there are too many columns.
fn crowded_at(at: usize, words: &[Token], names: &[TextValue]) -> Option<Wrong>
    requires few { at ≤ 2 ^ 63 }
    requires names { names.now ≡ names_of words.now }
    ensures { result ≡ crowded_at at words.now }
{
    if names.len() <= MAX_CONDITION_COLUMNS {
        return None;
    }
    Some(Wrong {
        kind: QueryKind::TooLong,
        at: at + words.len(),
    })
}

/// What these columns are, in the same order.
fn slots_of(
    alloc: Global,
    schema: &Schema,
    table: u8,
    names: &[TextValue],
) -> Result<Vec<Slot>, AllocError>
    ensures { IfOk result (λ slots. slots.items ≡ slots_of schema.now.tables table names.now) }
{
    let mut slots = Vec::new(alloc);
    for name in names {
        if let Some(slot) = slot_of(schema, table, name.as_slice()) {
            slots.push(slot)?;
        }
    }
    Ok(slots)
}

/// The kinds that a condition sees.
fn seen_kinds(alloc: Global, slots: &[Slot]) -> Result<Vec<Kind>, AllocError>
    ensures { IfOk result (λ kinds. kinds.items ≡ seen_kinds slots.now) }
{
    let mut kinds = Vec::with_capacity(alloc, slots.len())?;
    for slot in slots {
        kinds.push(seen_kind(slot.kind))?;
    }
    Ok(kinds)
}

fn seen_kind(kind: Kind) -> Kind
    ensures { result ≡ kind_for kind }
{
    match kind {
        Kind::Reference => Kind::Flag,
        other => other,
    }
}

/// The condition that these words are, which number from here.
pub(crate) fn read_condition(
    alloc: Global,
    schema: &Schema,
    table: u8,
    at: usize,
    words: &[Token],
) -> Result<Condition, Stop>
    requires few { at ≤ 2 ^ 63 }
    requires condition { IsCondition words.now }
    ensures found { IfOk result (λ condition. ReadsCondition schema.now.tables table at words.now
        (condition_data condition)) }
    ensures wrong { IfErr result (λ stop. IsStop stop (λ wrong. ReadsCondition schema.now.tables table at words.now
        (Err wrong))) }
{
    if let Some(wrong) = misfit_in(schema, table, at, words) {
        return Err(Stop::Fault(wrong));
    }
    let names = names_of(alloc, words)?;
    if let Some(wrong) = crowded_at(at, words, names.as_slice()) {
        return Err(Stop::Fault(wrong));
    }
    read_over(alloc, schema, table, at, words, names.as_slice())
}

/// The same, where nothing is wrong with the words, which name these columns.
fn read_over(
    alloc: Global,
    schema: &Schema,
    table: u8,
    at: usize,
    words: &[Token],
    names: &[TextValue],
) -> Result<Condition, Stop>
    requires few { at ≤ 2 ^ 63 }
    requires condition { IsCondition words.now }
    requires names { names.now ≡ names_of words.now }
    requires right { wrong_in (kind_named schema.now.tables table) at words.now ≡ None }
    ensures found { IfOk result (λ condition. ReadsCondition schema.now.tables table at words.now
        (condition_data condition)) }
    ensures wrong { IfErr result (λ stop. IsStop stop (λ wrong. ReadsCondition schema.now.tables table at words.now
        (Err wrong))) }
{
    let slots = slots_of(alloc, schema, table, names)?;
    let expr = build(alloc, words, names)?;
    if !sees_kinds(alloc, &expr, slots.as_slice())? {
        return Err(Stop::Fault(Wrong {
            kind: QueryKind::TypesDiffer,
            at: at + words.len(),
        }));
    }
    Ok(Condition { expr, slots })
}

/// Whether an expression fits the kinds that are seen in these columns.
fn sees_kinds(alloc: Global, expr: &Expr, slots: &[Slot]) -> Result<bool, AllocError>
    ensures { IfOk result (λ fits. IsTrue fits ↔ HasKinds (seen_kinds slots.now) (tree_of expr.now)) }
{
    let kinds = seen_kinds(alloc, slots)?;
    Ok(has_kinds(expr, kinds.as_slice()))
}
