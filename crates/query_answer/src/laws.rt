//! Laws of the definitions. Each function does nothing: its contract is a theorem for callers to cite.

ghost use Rattle.std.specs.Prelude.{◌≡◌, ◌∷◌, [], ◌++◌, ℕ, Bool, List};
ghost use Rattle.update_model.specs.declared.value.Value.{Value};
ghost use Rattle.row_check.specs.declared.kind.Kind.{Kind};
ghost use Rattle.row_check.specs.Kinds.{IsOfKind};
ghost use Rattle.schema.specs.declared.table_def.TableDef.{TableDef};
ghost use Rattle.table_model.specs.declared.shown_row.ShownRow.{ShownRow};
ghost use Rattle.table_model.specs.declared.void_line.VoidLine.{VoidLine};
ghost use Rattle.update_model.specs.Node.{NodeData};
ghost use Rattle.table_model.specs.Visible.{Rules};
ghost use Rattle.query.specs.Queries.{QueryData};
ghost use Rattle.query_answer.specs.Answers.{AnswerData, IsAnswer, IsAnswerOver};
ghost use Rattle.query_answer.specs.Json.{answer_data, json_text};
ghost use Rattle.query_answer.specs.TablesJson.{tables_data, tables_json_text};
ghost use Rattle.query_answer.specs.Values.{AreRising, IsPlain, seen};
ghost use Rattle.serde_json.specs.Written.{compact_text};

/// A query has one answer over tables in which names of rows rise.
pub fn one_answer()
    ensures { (relation : ℕ → List Value → Bool) (tables : List (List ShownRow)) (query : QueryData) (answer other :
        AnswerData) → AreRising tables
        → IsAnswer relation tables query answer → IsAnswer relation tables query other → answer ≡ other }
{}

/// A query has one answer over what a closed list of updates shows.
pub fn one_answer_over()
    ensures { (rules : Rules) (nodes : List NodeData) (query : QueryData) (answer other : AnswerData)
        → IsAnswerOver rules nodes query answer → IsAnswerOver rules nodes query other → answer ≡ other }
{}

/// The JSON of an answer is what the crate `serde_json` writes of its object, and an LF behind it.
pub fn json_is_compact()
    ensures { (answer : AnswerData) → json_text answer ≡ compact_text (answer_data answer) ++ 10 ∷ [] }
{}

/// The JSON of tables is what the crate `serde_json` writes of their object, and an LF behind it.
pub fn tables_json_is_compact()
    ensures { (tables : List TableDef) (lists : List (List ShownRow)) (voids : List VoidLine)
        → tables_json_text tables lists voids ≡ compact_text (tables_data tables lists voids) ++ 10 ∷ [] }
{}

/// A condition sees of a value in a column of its kind, which refers to no rows, the value itself.
pub fn values_are_seen()
    ensures { (kind : Kind) (value : Value) → IsPlain kind → IsOfKind kind value → seen kind value ≡ value }
{}
