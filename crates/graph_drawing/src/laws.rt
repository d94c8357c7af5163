//! Laws of pictures. Each function does nothing: its contract is a theorem for callers to cite. Lists of nodes stand
//! newest first.

ghost use Rattle.std.specs.Prelude.{◌≡◌, ◌<◌, List, ℕ, true, Contains};
ghost use Rattle.schema.specs.declared.table_def.TableDef.{TableDef};
ghost use Rattle.table_model.specs.Nodes.{IsClosed, IsSameSet};
ghost use Rattle.update_model.specs.Graph.{has};
ghost use Rattle.update_model.specs.Node.{NodeData};
ghost use Rattle.graph_drawing.specs.declared.form.Form.{Form as Written};
ghost use Rattle.graph_drawing.specs.declared.placed.Placed.{Placed};
ghost use Rattle.graph_drawing.specs.declared.spot.Spot.{Spot};
ghost use Rattle.graph_drawing.specs.Boxes.{arranged, drawn};
ghost use Rattle.graph_drawing.specs.Depths.{AreInOrder};
ghost use Rattle.graph_drawing.specs.Pictures.{IsPicture};
ghost use Rattle.graph_drawing.specs.Told.{Told};

/// A picture is a function of the set of updates, in whatever order they came.
pub fn same_set_same_picture()
    ensures { (form : Written) (tables : List TableDef) (xs ys : List NodeData) (told : Told) (text other : List ℕ)
        → IsClosed xs → IsClosed ys → IsSameSet xs ys → IsPicture form tables xs told text
        → IsPicture form tables ys told other → text ≡ other }
{}

/// Each box lies in a lower row than those of its predecessors that are drawn.
pub fn boxes_lie_below()
    ensures { (nodes : List NodeData) (placed : List Placed) (told : Told) (spot other : Spot) → IsClosed nodes
        → AreInOrder nodes placed
        → Contains (arranged told (drawn placed)).spots spot → Contains (arranged told (drawn placed)).spots other
        → has spot.node.preds other.node.id ≡ true → other.depth < spot.depth }
{}

/// The boxes of a column have one author.
pub fn columns_have_one_author()
    ensures { (told : Told) (placed : List Placed) (spot other : Spot)
        → Contains (arranged told placed).spots spot → Contains (arranged told placed).spots other
        → spot.column ≡ other.column → spot.node.author ≡ other.node.author }
{}
