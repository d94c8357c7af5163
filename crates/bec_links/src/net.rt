ghost use Rattle.std.specs.Prelude.{◌≡◌, ◌≤◌, ◌<◌, IfOk, OnErr};
ghost use Rattle.bec_bytes.specs.Causes.{HasCause, one_more, faults_after};
ghost use Rattle.bec_links.specs.Nets.{NetState, HandsOut, after_try, taken_back};

use crate::link::Link;
use bec_bytes::{Counted, Failed};

/// Where links come from. Each is handed out, and put back when its user is done. A `listen`, `accept` or
/// `dial` counts one fault where it fails, and else none.
pub trait Net: Counted {
    /// What a connection is handed out as.
    type L: Link;

    /// What the net tells of the links to come and of those that came back, how many are out, and how
    /// many of its calls failed.
    ghost state: { Self → NetState };

    /// Waits for connections at an address from now on, in place of one that it waited at before.
    fn listen(&mut self, address: &str) -> Result<(), Failed>
        ensures tried { state self.new ≡ after_try result (state self.old) }
        ensures count { Self.faults self.new ≡ faults_after result (Self.faults self.old) }
        ensures cause { HasCause (Self.faults self.old) (Self.faults self.new) result };

    /// Hands out the next connection that came, as a link whose count is 0. It may wait for one.
    fn accept(&mut self) -> Result<Self::L, Failed>
        ensures handed { IfOk result (λ link. HandsOut (state self.old) (Self.L.left link) (Self.L.held link)
            (state self.new)) }
        ensures clean { IfOk result (λ link. Self.L.faults link ≡ 0) }
        ensures refused { OnErr result (state self.new ≡ after_try result (state self.old)) }
        ensures count { Self.faults self.new ≡ faults_after result (Self.faults self.old) }
        ensures cause { HasCause (Self.faults self.old) (Self.faults self.new) result };

    /// Connects to an address, and hands the connection out as a link whose count is 0.
    fn dial(&mut self, address: &str) -> Result<Self::L, Failed>
        ensures handed { IfOk result (λ link. HandsOut (state self.old) (Self.L.left link) (Self.L.held link)
            (state self.new)) }
        ensures clean { IfOk result (λ link. Self.L.faults link ≡ 0) }
        ensures refused { OnErr result (state self.new ≡ after_try result (state self.old)) }
        ensures count { Self.faults self.new ≡ faults_after result (Self.faults self.old) }
        ensures cause { HasCause (Self.faults self.old) (Self.faults self.new) result };

    /// Takes a link back, and ends its connection. One that has counted a fault counts as one of the
    /// net, though as no call that failed.
    fn put_back(&mut self, link: Self::L)
        requires { 0 < (state self.old).out }
        ensures taken { state self.new ≡ taken_back (state self.old) (Self.L.held link) }
        ensures later { Self.faults self.old ≤ Self.faults self.new }
        ensures faulted { 0 < Self.L.faults link → Self.faults self.new ≡ one_more (Self.faults self.old) }
        ensures clean { Self.L.faults link ≡ 0 → Self.faults self.new ≡ Self.faults self.old };
}
