ghost use Rattle.std.specs.Prelude.{◌≡◌};

use crate::Line;
use std::marker::Model;

/// What the lines of a script say, in their order. A contract sees the list of its items.
#[derive(Drop)]
pub struct LineList {
    lines: Vec<Line>,
}

impl Model for LineList {
    ghost use Rattle.std.specs.Prelude.{List};
    ghost use Rattle.world_script.specs.declared.line.Line.{Line};

    ghost Value = { List Line };

    ghost view = { λ list. list.lines.items };
}

impl LineList {
    /// Takes over a vector.
    pub fn from_vec(lines: Vec<Line>) -> Self
        ensures { result ≡ lines.items }
    {
        LineList { lines }
    }

    /// Lends the lines.
    pub fn as_slice(&self) -> &[Line]
        ensures { result.now ≡ self.now }
    {
        self.lines.as_slice()
    }

    /// Gives the vector back.
    pub fn into_vec(self) -> Vec<Line>
        ensures { result.items ≡ self }
    {
        let LineList { lines } = self;
        lines
    }
}
