ghost use Rattle.std.specs.Prelude.{◌≡◌, IfOk, IfErr, IfSome, IfNone, OnErr, map};
ghost use Rattle.hash_graph.specs.Answer.{IsNew, answer_of};
ghost use Rattle.update_model.specs.Rule.{RuleData};
ghost use Rattle.update_codec.specs.Parts.{entry_of};
ghost use Rattle.update_check.specs.Causes.{IsCause};
ghost use Rattle.update_check.specs.Signed.{IsChecked};
ghost use Rattle.update_stream.specs.Faults.{not_added, not_spelled};
ghost use Rattle.update_stream.specs.Steps.{Takes, rule_for, set_after};

use crate::RecordFault;
use hash_graph::{Graph, Refusal};
use std::alloc::{AllocError, Global};
use update_check::{CheckFault, Checked, check_spelled};
use update_codec::{DecodeError, Spelled, spelled};
use update_model::{DbRule, KeyList};

/// Takes a record into the graph, or tells its fault and leaves the graph as it was.
///
/// Where no rule is given, the record is under the one that is set; the first record sets it.
pub fn take_record(
    alloc: Global,
    given: &Option<DbRule>,
    set: &mut Option<DbRule>,
    graph: &mut Graph<Checked>,
    bytes: Vec<u8>,
) -> Result<Option<RecordFault>, AllocError>
    ensures ok { IfOk result (λ fault. Takes (rule_for given.now set.old bytes.items) graph.old bytes.items graph.new
        fault) }
    ensures kept { IfOk result (λ fault. IfSome fault (λ _. graph.new ≡ graph.old)) }
    ensures set { IfOk result (λ fault. IfNone fault (set.new ≡ set_after given.now set.old bytes.items)) }
{
    let update = match spelled(alloc, bytes) {
        Ok(update) => update,
        Err(error) => return not_spelled(error),
    };
    let checked = match check_next(alloc, given, set, update) {
        Ok(checked) => checked,
        Err(fault) => return Ok(Some(RecordFault::Check(fault))),
    };
    add_next(graph, checked)
}

/// Adds a checked update to the graph, or tells its fault and leaves the graph as it was.
fn add_next(graph: &mut Graph<Checked>, update: Checked) -> Result<Option<RecordFault>, AllocError>
    ensures ok { IfOk result (λ fault. (rule : RuleData) → IsChecked rule update
        → Takes rule graph.old update graph.new fault) }
    ensures kept { IfOk result (λ fault. IfSome fault (λ _. graph.new ≡ graph.old)) }

    // Memory may run out only for an update that would stand last.
    ensures memory { OnErr result (IsNew (answer_of (map entry_of graph.old) (entry_of update))) }
{
    match graph.add(update) {
        Ok(_added) => Ok(None),
        Err(refused) => not_added(refused.why),
    }
}

/// What it is to a record that its bytes are not decoded.
fn not_spelled(error: DecodeError) -> Result<Option<RecordFault>, AllocError>
    ensures { result ≡ not_spelled error }
{
    match error {
        DecodeError::Fault(fault) => Ok(Some(RecordFault::Check(CheckFault::Codec(fault)))),
        DecodeError::Memory => Err(AllocError),
    }
}

/// What it is to a record that the graph does not take its update.
fn not_added(why: Refusal) -> Result<Option<RecordFault>, AllocError>
    ensures { result ≡ not_added why }
{
    match why {
        Refusal::Lacks(id) => Ok(Some(RecordFault::Lacks(id))),
        Refusal::Full => Ok(Some(RecordFault::Full)),
        Refusal::Memory => Err(AllocError),
    }
}

/// Checks an update under the rule that is given, or the one that is set, or else the one that it sets itself.
fn check_next(
    alloc: Global,
    given: &Option<DbRule>,
    set: &mut Option<DbRule>,
    update: Spelled,
) -> Result<Checked, CheckFault>
    ensures found { IfOk result (λ checked. IsChecked (rule_for given.now set.old update) checked) }
    ensures same { IfOk result (λ checked. checked ≡ update) }
    ensures fault { IfErr result (λ fault. IsCause (rule_for given.now set.old update) update fault) }
    ensures set { set.new ≡ set_after given.now set.old update }
{
    if let Some(rule) = given {
        return check_spelled(rule, update);
    }
    if let Some(rule) = set {
        return check_spelled(rule, update);
    }
    let rule = DbRule {
        database: *update.database(),
        authors: KeyList::from_vec(Vec::new(alloc)),
    };
    let answer = check_spelled(&rule, update);
    *set = Some(rule);
    answer
}
