//! Laws of views. Each function does nothing: its contract is a theorem for callers to cite.

ghost use Rattle.std.specs.Prelude.{◌≡◌, List};
ghost use Rattle.table_model.specs.Visible.{Rules};
ghost use Rattle.update_model.specs.Node.{NodeData};
ghost use Rattle.query.specs.Queries.{QueryData};
ghost use Rattle.query_answer.specs.Answers.{AnswerData, IsAnswerOver};
ghost use Rattle.live_view.specs.Named.{IsNamed, RiseByName};
ghost use Rattle.live_view.specs.Calls.{Call, Comes, IsRun, handed_out};
ghost use Rattle.live_view.specs.Changes.{IsChange, IsChanged, Line};
ghost use Rattle.live_view.specs.Shown.{IsView, ViewData};
ghost use Rattle.live_view.specs.declared.change.Change.{Change as Difference};

use crate::wish::{Wish, Wishes};

/// The lines of an answer whose first column is the name of the row, with neither keys nor a limit, rise by these
/// names.
pub fn named_answers_rise()
    ensures { (rules : Rules) (nodes : List NodeData) (query : QueryData) (answer : AnswerData)
        → IsNamed query → IsAnswerOver rules nodes query answer → RiseByName answer.rows }
{}

/// Over any list of calls with one schema and one meaning of native checks: what was shown first, changed by each
/// change that was handed out in order, is what is shown; and at each change it is the answer from scratch.
pub fn views_follow<W: Wish, G: Wishes<W>>()
    ensures { (rules : Rules) (first last : ViewData G) (calls : List Call)
        → IsView first → IsRun W.wants rules first calls last → Comes rules first.query first.shown (handed_out calls)
        last.shown }
{
    named_answers_rise();
}

/// A change makes one list.
pub fn one_changed()
    ensures { (before after other : List Line) (change : Difference) → IsChanged before change after
        → IsChanged before change other → after ≡ other }
{}

/// What a change is between two rising lists: it makes the second of the first, and there is one.
pub fn change_is()
    ensures makes { (before after : List Line) (change : Difference) → RiseByName after → IsChange before after change
        → IsChanged before change after }
    ensures one { (before after : List Line) (change other : Difference) → IsChange before after change
        → IsChange before after other → change ≡ other }
{}
