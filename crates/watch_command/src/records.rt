//! Reading the records of a stream, and taking them into a store.

ghost use Rattle.std.specs.Prelude.{◌≡◌, ◌≤◌, ◌<◌, ◌∷◌, [], ℕ, List, IfErr, IfOk, IfSome, IsTrue, OnErr, OnOk, false};
ghost use Rattle.std.specs.Prelude.{find, map, not};
ghost use Rattle.bec_bytes.specs.Moved.{IfTold};
ghost use Rattle.update_codec.specs.Parts.{entry_of};
ghost use Rattle.update_check.specs.Signed.{IsChecked};
ghost use Rattle.update_model.specs.Graph.{holds};
ghost use Rattle.update_check.specs.declared.check_error.CheckFault.TheVariants.{Codec};
ghost use Rattle.update_stream.specs.declared.record_fault.RecordFault.TheVariants.{Check};
ghost use Rattle.update_stream.specs.Steps.{Adds};
ghost use Rattle.update_stream.specs.declared.stream.TheConstants.{MAX_RECORDS};
ghost use Rattle.replica.specs.Holding.{IsWhole, KeepsOn};
ghost use Rattle.update_model.specs.Rule.{RuleData};
ghost use Rattle.watch_command.specs.Ending.{StopsAt};
ghost use Rattle.watch_command.specs.Records.{StandsNext, StopsReading, StopsTaking};
ghost use Rattle.watch_command.specs.Refusals.{not_added, not_checked};
ghost use Rattle.watch_command.specs.Steps.{IsAtEnd, TakesRecord};

use bec_bytes::{Failed, Framed, Source, read_framed, read_full};
use bec_disk::Disk;
use outcomes::Refusal;
use replica::Replica;
use row_check::Luhn;
use std::alloc::{AllocError, Global};
use update_check::{CheckError, CheckFault, Checked, CommitFault, Holder, check};
use update_codec::{CodecFault, CodecKind, UPDATE_LIMIT};
use update_model::{DbRule, Member, UpdateId};
use update_stream::{MAX_RECORDS, RecordFault};

/// Reads the next record of a stream as an update, under a rule; or none, at the stream's end.
fn next_update<S: Source>(
    alloc: Global,
    rule: &DbRule,
    number: u32,
    input: &mut S,
) -> Result<Option<Checked>, Refusal>
    ensures stands { IfOk result (λ update. IfTold (S.left input.old) (S.left input.new) (StandsNext update)) }
    ensures checked { IfOk result (λ update. IfSome update (IsChecked rule.now)) }
    ensures stopped { IfErr result (λ why. StopsReading rule.now number (S.left input.old) (S.left input.new)
        (S.faults input.old) (S.faults input.new) why) }
    ensures later { S.faults input.old ≤ S.faults input.new }
{
    match read_framed(alloc, input, UPDATE_LIMIT)? {
        Framed::End => Ok(None),
        Framed::Cut(came) => Err(cut(number, CodecKind::Short, came as u32)),
        Framed::TooLong => Err(cut(number, CodecKind::TooLong, UPDATE_LIMIT as u32)),
        Framed::Whole(bytes) => match check(alloc, rule, bytes) {
            Ok(update) => Ok(Some(update)),
            Err(error) => Err(not_checked(number, error)),
        },
    }
}

/// The refusal of a record with this number that does not stand there whole.
fn cut(number: u32, kind: CodecKind, place: u32) -> Refusal
    ensures { result ≡ Refusal.Record number (Check (Codec (record { kind = kind; place = place }))) }
{
    refused(
        number,
        RecordFault::Check(CheckFault::Codec(CodecFault { kind, place })),
    )
}

/// The refusal of a record with this number that does not pass the checks.
fn not_checked(number: u32, error: CheckError) -> Refusal
    ensures { result ≡ not_checked number error }
{
    match error {
        CheckError::Fault(fault) => refused(number, RecordFault::Check(fault)),
        CheckError::Memory => Refusal::Memory,
    }
}

/// The refusal of a record with this number.
fn refused(number: u32, fault: RecordFault) -> Refusal
    ensures { result ≡ Refusal.Record number fault }
{
    Refusal::Record { number, fault }
}

/// Takes an update into a store, as the record with this number: it is there already, or it is added, on the disk too.
fn take_update<D: Disk>(
    alloc: Global,
    replica: &mut Replica<D, Luhn, Luhn>,
    number: u32,
    update: Checked,
) -> Result<(), Refusal>
    requires { IsChecked replica.old.history.schema.rule update }
    ensures taken { OnOk result (Adds replica.old.history.members update replica.new.history.members) }
    ensures stopped { IfErr result (λ why. StopsTaking replica.old.history.members number update replica.old.log.faults
        replica.new.log.faults why) }
    ensures same { OnErr result (replica.new.history.members ≡ replica.old.history.members) }
    ensures keeps { KeepsOn replica.old replica.new }
    ensures whole { OnOk result (IsWhole replica.old → IsWhole replica.new) }
    ensures later { replica.old.log.faults ≤ replica.new.log.faults }
{
    Holder::len(replica); // what is held is closed
    if Holder::position(replica, &update.id()).is_some() {
        return Ok(());
    }
    if let Some(id) = first_lacking(replica, update.preds()) {
        return Err(refused(number, RecordFault::Lacks(id)));
    }
    let batch = batch_of(alloc, update)?;
    match Holder::commit(replica, alloc, batch) {
        Ok(_committed) => Ok(()),
        Err(fault) => Err(not_added(number, fault)),
    }
}

/// The refusal of a record with this number that the store does not add.
fn not_added(number: u32, fault: CommitFault) -> Refusal
    ensures { result ≡ not_added number fault }
{
    match fault {
        CommitFault::Full => refused(number, RecordFault::Full),
        CommitFault::DiskFault => Refusal::StoreFault,
        CommitFault::Memory => Refusal::Memory,
    }
}

/// A batch of one update.
fn batch_of(alloc: Global, update: Checked) -> Result<Vec<Checked>, AllocError>
    ensures { IfOk result (λ batch. batch.items ≡ update ∷ []) }
{
    let mut batch = Vec::new(alloc);
    batch.push(update)?;
    Ok(batch)
}

/// The first of these ids that no update of a store has.
fn first_lacking<D: Disk>(replica: &Replica<D, Luhn, Luhn>, ids: &[UpdateId]) -> Option<UpdateId>
    ensures { result ≡ find (λ id. not (holds (map entry_of replica.now.history.members) id)) ids.now }
{
    ids.iter().find(|id| !is_held(replica, id)).copied()
}

/// Whether an update of a store has this id.
fn is_held<D: Disk>(replica: &Replica<D, Luhn, Luhn>, id: &UpdateId) -> bool
    ensures { result ≡ holds (map entry_of replica.now.history.members) id.now }
{
    Holder::position(replica, id).is_some()
}

/// Reads the next record of a stream and takes it into a store, behind so many others; or answers false, at the
/// stream's end.
pub(crate) fn take_next<D: Disk, S: Source>(
    alloc: Global,
    replica: &mut Replica<D, Luhn, Luhn>,
    count: u32,
    input: &mut S,
) -> Result<bool, Refusal>
    requires { count < MAX_RECORDS }
    ensures taken { IfOk result (λ more. IsTrue more → TakesRecord replica.old.history.schema.rule (S.left input.old)
        (S.left input.new) replica.old.history.members replica.new.history.members) }
    ensures end { IfOk result (λ more. more ≡ false → IfTold (S.left input.old) (S.left input.new) IsAtEnd
        × (replica.new ≡ replica.old)) }
    ensures stopped { IfErr result (λ why. StopsAt replica.old.history.schema.rule replica.old.history.members count
        (S.left input.old) (S.left input.new)
        replica.old.log.faults replica.new.log.faults (S.faults input.old) (S.faults input.new) why) }
    ensures same { OnErr result (replica.new.history.members ≡ replica.old.history.members) }
    ensures keeps { KeepsOn replica.old replica.new }
    ensures whole { OnOk result (IsWhole replica.old → IsWhole replica.new) }
    ensures later { replica.old.log.faults ≤ replica.new.log.faults }
    ensures source_later { S.faults input.old ≤ S.faults input.new }
{
    match next_update(alloc, Holder::rule(replica), count + 1, input)? {
        None => Ok(false),
        Some(update) => {
            take_update(alloc, replica, count + 1, update)?;
            Ok(true)
        }
    }
}

/// That a stream ends behind as many records as one has at most.
pub(crate) fn at_end<S: Source>(input: &mut S) -> Result<(), Refusal>
    ensures end { OnOk result (IfTold (S.left input.old) (S.left input.new) IsAtEnd) }
    ensures stopped { IfErr result (λ why. (rule : RuleData) (members : List (List ℕ)) (faults : ℕ)
        → StopsAt rule members MAX_RECORDS (S.left input.old) (S.left input.new) faults faults (S.faults input.old)
        (S.faults input.new) why) }
    ensures later { S.faults input.old ≤ S.faults input.new }
{
    let mut more = [0u8; 1];
    match read_full(input, &mut more) {
        Ok(0) => Ok(()),
        Ok(_) => Err(refused(MAX_RECORDS + 1, RecordFault::Full)),
        Err(Failed) => Err(Refusal::Stream),
    }
}
