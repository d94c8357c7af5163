//! An update to a session, with no holder at hand.

ghost use Rattle.std.specs.Prelude.{◌≡◌, true, IfOk, OnErr};
ghost use Rattle.sync_session.specs.Gathering.{BelongsSomewhere, GathersAnywhere, StaysWith};

use crate::{Out, Session};
use std::alloc::{AllocError, Global};
use update_check::Checked;

impl Session {
    /// Takes an update that the peer sent, as [`Session::step`] takes its frame. It is only gathered, so no holder is
    /// needed: what it does is the same over every list that the session belongs to.
    ///
    /// A session that has ended, or whose memory ran out in an earlier call, answers nothing. Where memory runs out the
    /// session is over.
    pub fn gather_update(&mut self, alloc: Global, update: Checked) -> Result<Out, AllocError>
        requires belongs { BelongsSomewhere self.old }
        ensures gathers { IfOk result (λ out. GathersAnywhere self.old update self.new out) }
        ensures stays { StaysWith update self.old self.new }
        ensures failed { OnErr result (self.new.failed ≡ true) }
    {
        if self.is_over() {
            return Ok(Out::silent(alloc));
        }
        match self.take_item(alloc, update) {
            Ok(out) => Ok(out),
            Err(fault) => {
                self.failed = true;
                Err(fault)
            }
        }
    }
}
