use crate::NoteLine;
use std::marker::Model;
use table_model::VoidLine;
use update_model::UpdateId;

/// What is told of updates beside themselves.
#[derive(Drop)]
pub struct Told {
    /// The ids of the heads.
    pub heads: Vec<UpdateId>,
    /// The updates that do nothing, and why.
    pub voids: Vec<VoidLine>,
    /// The notes of updates.
    pub notes: Vec<NoteLine>,
}

impl Model for Told {
    ghost use Rattle.graph_drawing.specs.Told.{Told as Telling};

    ghost Value = { Telling };

    ghost view = { λ told. record { heads = told.heads.items; voids = told.voids.items; notes = told.notes.items } };
}
