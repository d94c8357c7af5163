ghost use Rattle.std.specs.Prelude.{◌≡◌, ◌≤◌, []};
ghost use Rattle.update_model.specs.declared.limits.TheConstants.{MAX_MEMBERS};

use hash_graph::Graph;
use std::alloc::Global;
use std::marker::Model;
use update_check::Checked;
use update_model::DbRule;

/// When a commit fails as if a disk did.
#[derive(Clone, Copy)]
pub(crate) enum Failing {
    /// None is to fail.
    Never,
    /// One is to fail, after so many others.
    After(u32),
    /// One did.
    Failed,
}

/// Updates in memory, no more than so many.
///
/// A contract sees its updates in the order of arrival, the rule that they are under, how many there may be, and its
/// count of faults.
#[derive(Drop)]
pub struct MemHolder {
    pub(crate) rule: DbRule,
    pub(crate) graph: Graph<Checked>,
    pub(crate) most: u32,
    pub(crate) failing: Failing,
}

impl Model for MemHolder {
    ghost use Rattle.mem_holder.specs.Holders.{HolderState, IsHolder, faults_of};

    ghost Value = { HolderState };

    ghost view = { λ h. record { members = h.graph; rule = h.rule; most = h.most; faults = faults_of h.failing } };

    ghost invariant = { λ h.
        IsHolder (record { members = h.graph; rule = h.rule; most = h.most; faults = faults_of h.failing }) };
}

impl MemHolder {
    /// A holder of no update yet, under this rule. It takes no more than `most` updates. Where there is a number, the
    /// commit after so many others fails and counts a fault, and no other does.
    pub fn new(alloc: Global, rule: DbRule, most: u32, failing: Option<u32>) -> MemHolder
        requires { most ≤ MAX_MEMBERS }
        ensures { result ≡ record { members = []; rule = rule; most = most; faults = 0 } }
    {
        MemHolder {
            rule,
            graph: Graph::new(alloc),
            most,
            failing: match failing {
                None => Failing::Never,
                Some(number) => Failing::After(number),
            },
        }
    }
}
