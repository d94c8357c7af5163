ghost use Rattle.std.specs.Prelude.{◌≡◌, List};
ghost use Rattle.update_model.specs.Entry.{Entry};
ghost use Rattle.session_rules.specs.Steps.{silent, closing};
ghost use Rattle.sync_session.specs.Kept.{out_of};

use session_rules::End;
use std::alloc::Global;
use sync_frames::{Hello, Turn};
use update_model::PositionList;

/// What a step hands out: what is to be sent to the peer, in this order, and how the session ended.
#[derive(Drop)]
pub struct Out {
    /// A Hello.
    pub hello: Option<Hello>,
    /// The positions of updates of the holder.
    pub send: PositionList,
    /// The Turn that ends the turn.
    pub turn: Option<Turn>,
    /// How the session ended, where it did in this step.
    pub end: Option<End>,
}

impl Out {
    /// Nothing.
    pub(crate) fn silent(alloc: Global) -> Out
        ensures { (list : List Entry) → out_of list result ≡ silent }
    {
        Out {
            hello: None,
            send: PositionList::from_vec(Vec::new(alloc)),
            turn: None,
            end: None,
        }
    }

    /// The end alone.
    pub(crate) fn closing(alloc: Global, end: End) -> Out
        ensures { (list : List Entry) → out_of list result ≡ closing end }
    {
        Out {
            hello: None,
            send: PositionList::from_vec(Vec::new(alloc)),
            turn: None,
            end: Some(end),
        }
    }
}
