//! Which words may follow which in a query.

ghost use Rattle.std.specs.Prelude.{◌≡◌};
ghost use Rattle.query.specs.Grammar.{next_phase, may_end, refusal, after_start, after_select, after_star};
ghost use Rattle.query.specs.Grammar.{after_column, after_comma, after_from, after_table, after_where, after_order};
ghost use Rattle.query.specs.Grammar.{after_by, after_key, after_desc, after_limit, stop_from, stop_of};

use crate::QueryKind;
use crate::mark::{Mark, mark_of};
use crate::stop::Wrong;
use expression_text::Token;

/// Where a query stands.
#[derive(Clone, Copy)]
pub(crate) enum Phase {
    /// Before its first word.
    Start,
    /// Behind `SELECT`.
    Columns,
    /// Behind `*`.
    AfterStar,
    /// Behind a column.
    AfterColumn,
    /// Behind a comma between columns.
    Column,
    /// Behind `FROM`.
    Table,
    /// Behind the name of the table.
    AfterTable,
    /// In the condition.
    Condition,
    /// Behind `ORDER`.
    AfterOrder,
    /// Behind `BY`, or a comma between keys.
    Key,
    /// Behind a key.
    AfterKey,
    /// Behind `DESC`.
    AfterDesc,
    /// Behind `LIMIT`.
    Limit,
    /// Behind the number of that.
    End,
}

/// Where it stands after a word more, if it may have it.
fn next_phase(phase: Phase, mark: Mark) -> Option<Phase>
    ensures { result ≡ next_phase phase mark }
{
    match phase {
        Phase::Start => after_start(mark),
        Phase::Columns => after_select(mark),
        Phase::AfterStar => after_star(mark),
        Phase::AfterColumn => after_column(mark),
        Phase::Column => after_comma(mark),
        Phase::Table => after_from(mark),
        Phase::AfterTable => after_table(mark),
        Phase::Condition => after_where(mark),
        Phase::AfterOrder => after_order(mark),
        Phase::Key => after_by(mark),
        Phase::AfterKey => after_key(mark),
        Phase::AfterDesc => after_desc(mark),
        Phase::Limit => after_limit(mark),
        Phase::End => None,
    }
}

fn after_start(mark: Mark) -> Option<Phase>
    ensures { result ≡ after_start mark }
{
    match mark {
        Mark::Select => Some(Phase::Columns),
        _ => None,
    }
}

fn after_select(mark: Mark) -> Option<Phase>
    ensures { result ≡ after_select mark }
{
    match mark {
        Mark::Star => Some(Phase::AfterStar),
        Mark::Row | Mark::Name => Some(Phase::AfterColumn),
        _ => None,
    }
}

fn after_star(mark: Mark) -> Option<Phase>
    ensures { result ≡ after_star mark }
{
    match mark {
        Mark::From => Some(Phase::Table),
        _ => None,
    }
}

fn after_column(mark: Mark) -> Option<Phase>
    ensures { result ≡ after_column mark }
{
    match mark {
        Mark::Comma => Some(Phase::Column),
        Mark::From => Some(Phase::Table),
        _ => None,
    }
}

fn after_comma(mark: Mark) -> Option<Phase>
    ensures { result ≡ after_comma mark }
{
    match mark {
        Mark::Row | Mark::Name => Some(Phase::AfterColumn),
        _ => None,
    }
}

fn after_from(mark: Mark) -> Option<Phase>
    ensures { result ≡ after_from mark }
{
    match mark {
        Mark::Name => Some(Phase::AfterTable),
        _ => None,
    }
}

fn after_table(mark: Mark) -> Option<Phase>
    ensures { result ≡ after_table mark }
{
    match mark {
        Mark::Where => Some(Phase::Condition),
        Mark::Order => Some(Phase::AfterOrder),
        Mark::Limit => Some(Phase::Limit),
        _ => None,
    }
}

fn after_where(mark: Mark) -> Option<Phase>
    ensures { result ≡ after_where mark }
{
    match mark {
        Mark::Order => Some(Phase::AfterOrder),
        Mark::Limit => Some(Phase::Limit),
        _ => Some(Phase::Condition),
    }
}

fn after_order(mark: Mark) -> Option<Phase>
    ensures { result ≡ after_order mark }
{
    match mark {
        Mark::By => Some(Phase::Key),
        _ => None,
    }
}

fn after_by(mark: Mark) -> Option<Phase>
    ensures { result ≡ after_by mark }
{
    match mark {
        Mark::Name => Some(Phase::AfterKey),
        _ => None,
    }
}

fn after_key(mark: Mark) -> Option<Phase>
    ensures { result ≡ after_key mark }
{
    match mark {
        Mark::Comma => Some(Phase::Key),
        Mark::Desc => Some(Phase::AfterDesc),
        Mark::Limit => Some(Phase::Limit),
        _ => None,
    }
}

fn after_desc(mark: Mark) -> Option<Phase>
    ensures { result ≡ after_desc mark }
{
    match mark {
        Mark::Comma => Some(Phase::Key),
        Mark::Limit => Some(Phase::Limit),
        _ => None,
    }
}

fn after_limit(mark: Mark) -> Option<Phase>
    ensures { result ≡ after_limit mark }
{
    match mark {
        Mark::Number => Some(Phase::End),
        _ => None,
    }
}

/// Whether a query may end here.
fn may_end(phase: Phase) -> bool
    ensures { result ≡ may_end phase }
{
    matches!(
        phase,
        Phase::AfterTable | Phase::Condition | Phase::AfterKey | Phase::AfterDesc | Phase::End
    )
}

/// Why a word may not stand here.
fn refusal(phase: Phase, mark: Mark) -> QueryKind
    ensures { result ≡ refusal phase mark }
{
    match (phase, mark) {
        (Phase::Limit, _) | (_, Mark::Bad) => QueryKind::NotAValue,
        _ => QueryKind::UnknownWord,
    }
}

/// The first word that may not stand where it stands, or the end where it comes too early.
pub(crate) fn stop_of(words: &[Token]) -> Option<Wrong>
    ensures { result ≡ stop_of words.now }
{
    let mut phase = Phase::Start;
    for (at, word) in words.iter().enumerate() {
        let mark = mark_of(word);
        match next_phase(phase, mark) {
            Some(next) => phase = next,
            None => {
                return Some(Wrong {
                    kind: refusal(phase, mark),
                    at,
                });
            }
        }
    }
    if may_end(phase) {
        None
    } else {
        Some(Wrong {
            kind: QueryKind::UnknownWord,
            at: words.len(),
        })
    }
}
