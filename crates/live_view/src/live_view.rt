//! A view over the tables of a set of updates.

ghost use Rattle.std.specs.Prelude.{◌≡◌, List, IfOk, IsErrOf, OnErr, length};
ghost use Rattle.update_model.specs.Node.{NodeData};
ghost use Rattle.table_model.specs.Visible.{rules_with};
ghost use Rattle.tuple_state.specs.State.{IsStateOf};
ghost use Rattle.live_view.specs.Named.{IsNamed};
ghost use Rattle.query.specs.Outcome.{data_of as query_data};
ghost use Rattle.live_view.specs.Named.{RiseByName};
ghost use Rattle.live_view.specs.Shown.{AreLinesOf, Flushes, FlushesOn, IsView, Refreshes, RefreshesOn};

use crate::change::{Change, change_between};
use crate::laws::named_answers_rise;
use crate::naming::is_named;
use crate::wish::{When, Wish, Wishes};
use query::Query;
use query_answer::answer;
use row_check::{Checks, Native, Relation};
use schema::Schema;
use std::alloc::{AllocError, Global};
use std::marker::Model;
use thiserror::Error;
use tuple_state::Tables;
use update_model::ValueList;

/// Why a query is not watched.
#[derive(Clone, Copy, Debug, Error)]
pub enum WatchError {
    /// Its first column is not the name of the row, or it has keys of an order or a limit.
    #[error("the query is not named")]
    NotNamed,
    /// Memory ran out.
    #[error("out of memory")]
    Memory,
}

/// A query, the lines of its answer that a subscriber was shown, and when it wants to be told of others.
///
/// Its type keeps that the query is named and that the lines rise by the names of their rows.
#[derive(Drop)]
pub struct LiveView<W: Wish, G: Wishes<W>> {
    query: Query,
    when: When<W, G>,
    shown: Vec<ValueList>,
}

impl<W: Wish, G: Wishes<W>> Model for LiveView<W, G> {
    ghost use Rattle.std.specs.Coded.{codes};
    ghost use Rattle.schema.specs.Checks.{coded_tree};
    ghost use Rattle.query.specs.Outcome.{data_of};
    ghost use Rattle.live_view.specs.Shown.{IsView, ViewData};

    ghost Value = { ViewData G };

    ghost coded = { Prim.hlevel (codes, coded_tree) };

    ghost view = { λ view. record { query = data_of view.query; when = view.when; shown = view.shown.items } };

    ghost invariant = { λ view.
        IsView (record { query = data_of view.query; when = view.when; shown = view.shown.items }) };
}

/// A view of a query, which shows its answer on these tables. [`WatchError::NotNamed`] comes exactly where the query is
/// not named: its first column is not the name of the row, or it has keys of an order or a limit.
pub fn watch<L: Relation, C: Checks<L>, W: Wish, G: Wishes<W>>(
    alloc: Global,
    native: &Native<L, C>,
    schema: &Schema,
    tables: &Tables,
    query: Query,
    when: When<W, G>,
) -> Result<LiveView<W, G>, WatchError>
    requires { (nodes : List NodeData) × IsStateOf (rules_with L.answer schema.now.tables) nodes tables.now }
    ensures shows { IfOk result (λ view. (nodes : List NodeData) → IsStateOf (rules_with L.answer schema.now.tables)
        nodes tables.now
        → AreLinesOf (rules_with L.answer schema.now.tables) nodes (query_data query) view.shown) }
    ensures query { IfOk result (λ view. view.query ≡ query_data query) }
    ensures when { IfOk result (λ view. view.when ≡ when) }
    ensures named { IfOk result (λ _. IsNamed (query_data query)) }
    ensures not_named { IsErrOf result WatchError.NotNamed → IsNamed (query_data query) → ⊥ }
{
    if !is_named(&query) {
        return Err(WatchError::NotNamed);
    }
    match lines_of(alloc, native, schema, tables, &query) {
        Ok(shown) => Ok(LiveView { query, when, shown }),
        Err(AllocError) => Err(WatchError::Memory),
    }
}

impl<W: Wish, G: Wishes<W>> LiveView<W, G> {
    /// What was shown last, and what holds of every view.
    pub fn shown(&self) -> &[ValueList]
        ensures lines { result.now ≡ self.now.shown }
        ensures is_view { IsView self.now }
    {
        &self.shown
    }

    /// Takes the answer on these tables. Where it is another one and its change is wanted, it is shown from now on, and
    /// the change handed out; else what is shown stays, as it does where memory runs out.
    pub fn refresh<L: Relation, C: Checks<L>>(
        &mut self,
        alloc: Global,
        native: &Native<L, C>,
        schema: &Schema,
        tables: &Tables,
    ) -> Result<Option<Change>, AllocError>
        requires { (nodes : List NodeData) × IsStateOf (rules_with L.answer schema.now.tables) nodes tables.now }
        ensures refreshes { IfOk result (λ change. (nodes : List NodeData)
            → IsStateOf (rules_with L.answer schema.now.tables) nodes tables.now
            → RefreshesOn W.wants (rules_with L.answer schema.now.tables) nodes self.old change self.new) }
        ensures same { OnErr result (self.new ≡ self.old) }
    {
        let lines = lines_of(alloc, native, schema, tables, &self.query)?;
        self.show_wanted(alloc, lines)
    }

    /// Takes the answer on these tables, shows it from now on, and hands its change out, which may be empty. Where
    /// memory runs out, what is shown stays.
    pub fn flush<L: Relation, C: Checks<L>>(
        &mut self,
        alloc: Global,
        native: &Native<L, C>,
        schema: &Schema,
        tables: &Tables,
    ) -> Result<Change, AllocError>
        requires { (nodes : List NodeData) × IsStateOf (rules_with L.answer schema.now.tables) nodes tables.now }
        ensures flushes { IfOk result (λ change. (nodes : List NodeData)
            → IsStateOf (rules_with L.answer schema.now.tables) nodes tables.now
            → FlushesOn (rules_with L.answer schema.now.tables) nodes self.old change self.new) }
        ensures same { OnErr result (self.new ≡ self.old) }
    {
        let lines = lines_of(alloc, native, schema, tables, &self.query)?;
        self.show(alloc, lines)
    }

    /// Shows other lines where they differ and their change is wanted, and hands it out.
    fn show_wanted(
        &mut self,
        alloc: Global,
        lines: Vec<ValueList>,
    ) -> Result<Option<Change>, AllocError>
        requires { RiseByName lines.items }
        ensures refreshes { IfOk result (λ change. Refreshes W.wants self.old lines.items change self.new) }
        ensures same { OnErr result (self.new ≡ self.old) }
    {
        let change = change_between(alloc, &self.shown, &lines)?;
        if change.is_empty() {
            return Ok(None);
        }
        if !self.is_wanted(&change) {
            return Ok(None);
        }
        self.shown = lines;
        Ok(Some(change))
    }

    /// Shows other lines, and hands their change out.
    fn show(&mut self, alloc: Global, lines: Vec<ValueList>) -> Result<Change, AllocError>
        requires { RiseByName lines.items }
        ensures flushes { IfOk result (λ change. Flushes self.old lines.items change self.new) }
        ensures same { OnErr result (self.new ≡ self.old) }
    {
        let change = change_between(alloc, &self.shown, &lines)?;
        self.shown = lines;
        Ok(change)
    }

    /// Whether the subscriber wants a change.
    fn is_wanted(&self, change: &Change) -> bool
        ensures { result ≡ W.wants self.now.when.param (length change.now.went) (length change.now.came) }
    {
        self.when
            .ask(change.went.len() as u64, change.came.len() as u64)
    }
}

/// The lines of the answer of a named query, which rise.
fn lines_of<L: Relation, C: Checks<L>>(
    alloc: Global,
    native: &Native<L, C>,
    schema: &Schema,
    tables: &Tables,
    query: &Query,
) -> Result<Vec<ValueList>, AllocError>
    requires named { IsNamed (query_data query.now) }
    requires state { (nodes : List NodeData) × IsStateOf (rules_with L.answer schema.now.tables) nodes tables.now }
    ensures rising { IfOk result (λ lines. RiseByName lines.items) }
    ensures are { IfOk result (λ lines. (nodes : List NodeData) → IsStateOf (rules_with L.answer schema.now.tables)
        nodes tables.now
        → AreLinesOf (rules_with L.answer schema.now.tables) nodes (query_data query.now) lines.items) }
{
    named_answers_rise();
    let answer = answer(alloc, native, schema, query, tables)?;
    Ok(answer.rows)
}
