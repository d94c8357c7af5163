//! Laws of logs. Each function does nothing: its contract is a theorem for callers to cite.

ghost use Rattle.std.specs.Prelude.{◌≡◌, Bool, List, ℕ};
ghost use Rattle.schema.specs.declared.table_def.TableDef.{TableDef};
ghost use Rattle.table_model.specs.Nodes.{IsClosed, IsSameSet};
ghost use Rattle.update_model.specs.Node.{NodeData};
ghost use Rattle.graph_drawing.specs.Told.{Told};
ghost use Rattle.log_texts.specs.declared.style.Style.{Style as Asked};
ghost use Rattle.log_texts.specs.Logs.{IsLog};

/// A log is a function of the set of updates, in whatever order they came.
pub fn same_set_same_log()
    ensures { (style : Asked) (rows : Bool) (tables : List TableDef) (xs ys : List NodeData) (told : Told) (text other :
        List ℕ)
        → IsClosed xs → IsClosed ys → IsSameSet xs ys → IsLog style rows tables xs told text
        → IsLog style rows tables ys told other → text ≡ other }
{}
