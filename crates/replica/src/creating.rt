//! Creating a store.

ghost use Rattle.std.specs.Prelude.{◌≡◌, ◌≤◌, ◌⊎◌, ◌++◌, [], IsTrue, IfOk, IfErr, OnOk};
ghost use Rattle.bec_bytes.specs.Causes.{Rose};
ghost use Rattle.bec_disk.specs.Disk.{IsSameDisk, IsSettled};
ghost use Rattle.bec_disk.specs.Gated.{gated_of};
ghost use Rattle.confluence_test.specs.Taking.{TakesSchema};
ghost use Rattle.update_log.specs.Log.{IsClean};
ghost use Rattle.replica.specs.Faults.{creating_kind, refusal_kind};
ghost use Rattle.replica.specs.Opening.{Creating, IsCreateCause, IsCreated, IsTextCause, WritesNothing};
ghost use Rattle.replica.specs.declared.create_fault.CreateKind.TheVariants.{DiskFault as DiskFailed};

use crate::create_fault::{CreateFault, CreateKind};
use crate::opening::{Declared, NotOpened, open_declared};
use crate::replica::Replica;
use bec_disk::{Disk, DiskError, DiskFault, Gated, cut_synced, read_gated, write_gated};
use confluence_test::{SchemaRefusal, take_schema};
use record_check::OneThread;
use row_check::{Checks, Native, Relation};
use std::alloc::{AllocError, Global};
use update_log::{one_logset, whole_logset};
use update_model::ByteList;

/// Creates a store without updates, where the part Schema is absent: empties the part Updates, and then writes the part
/// Schema, which makes it a store. Both parts have to be settled.
#[tactic(auto, using(crate::proofs::Mapped::creates))]
pub fn create<D: Disk, L: Relation, C: Checks<L>>(
    alloc: Global,
    schema: &mut D,
    updates: D,
    node: [u8; 32],
    text: &[u8],
    native: Native<L, C>,
) -> Result<Replica<D, L, C>, CreateFault<D, L, C>>
    requires schema { IsTrue (D.state schema.old).tells → IsSettled (D.state schema.old) }
    requires updates { IsTrue (D.state updates).tells → IsSettled (D.state updates) }
    ensures created { IfOk result (λ replica. IsCreated L.answer (D.state schema.old) (D.state updates) node text.now
        replica (D.state schema.new)) }
    ensures refused { IfErr result (λ fault. IsCreateCause L.answer (D.state schema.old) text.now fault.why) }

    // A crash at any moment of it leaves no store, or the old part Schema, or the new store without updates.
    ensures creating { IfOk result (λ replica. Creating (D.state schema.old) (D.state updates) (node ++ text.now)
        (D.state schema.new) replica.log.disk) }
    ensures creating_err { IfErr result (λ fault. Creating (D.state schema.old) (D.state updates) (node ++ text.now)
        (D.state schema.new) (D.state fault.updates)) }
    ensures untouched { IfErr result (λ fault. WritesNothing fault.why → (D.state schema.new ≡ D.state schema.old)
        × (D.state fault.updates ≡ D.state updates)) }
    ensures schema_later { D.faults schema.old ≤ D.faults schema.new }
    ensures later { IfOk result (λ replica. D.faults updates ≤ replica.log.faults) }
    ensures later_err { IfErr result (λ fault. D.faults updates ≤ D.faults fault.updates) }
    ensures failed { IfErr result (λ fault. fault.why ≡ DiskFailed → Rose (D.faults schema.old) (D.faults schema.new)
        ⊎ Rose (D.faults updates) (D.faults fault.updates)) }
{
    let Plan { declared, payload } = match plan_store(alloc, schema, node, text, &native) {
        Ok(plan) => plan,
        Err(why) => {
            return Err(CreateFault {
                why,
                updates,
                native,
            });
        }
    };
    let replica = match open_empty(alloc, declared, updates, native) {
        Ok(replica) => replica,
        Err(
            NotOpened {
                why,
                updates,
                native,
            },
        ) => {
            return Err(CreateFault {
                why: creating_kind(why),
                updates,
                native,
            });
        }
    };
    match write_gated(schema, payload.as_slice()) {
        Ok(()) => Ok(replica),
        Err(_) => {
            let (updates, native) = replica.into_parts();
            Err(CreateFault {
                why: CreateKind::DiskFault,
                updates,
                native,
            })
        }
    }
}

/// What is to be written, in memory.
#[derive(Drop)]
struct Plan {
    declared: Declared,
    payload: ByteList,
}

/// What a new store is to be, where the part Schema is absent.
#[tactic(auto, using(crate::proofs::Mapped::create_cause, crate::proofs::Mapped::create_disk))]
fn plan_store<D: Disk, L: Relation, C: Checks<L>>(
    alloc: Global,
    part: &mut D,
    node: [u8; 32],
    text: &[u8],
    native: &Native<L, C>,
) -> Result<Plan, CreateKind>
    ensures node { IfOk result (λ plan. plan.declared.node ≡ node) }
    ensures taken { IfOk result (λ plan. TakesSchema L.answer text.now plan.declared.schema) }
    ensures payload { IfOk result (λ plan. plan.payload ≡ node ++ text.now) }
    ensures absent { IsTrue (D.state part.old).tells → OnOk result (gated_of (D.state part.old).seen ≡ Gated.Absent) }
    ensures refused { IfErr result (λ why. IsCreateCause L.answer (D.state part.old) text.now why) }
    ensures same { D.state part.new ≡ D.state part.old }
    ensures later { D.faults part.old ≤ D.faults part.new }
    ensures failed { IfErr result (λ why. why ≡ DiskFailed → Rose (D.faults part.old) (D.faults part.new)) }
{
    match read_gated(alloc, part) {
        Ok(Gated::Absent) => plan_for(alloc, node, text, native),
        Ok(_) => Err(CreateKind::NotEmpty),
        Err(error) => Err(creating_kind(error)),
    }
}

/// What a store of this text is to be.
fn plan_for<L: Relation, C: Checks<L>>(
    alloc: Global,
    node: [u8; 32],
    text: &[u8],
    native: &Native<L, C>,
) -> Result<Plan, CreateKind>
    ensures node { IfOk result (λ plan. plan.declared.node ≡ node) }
    ensures taken { IfOk result (λ plan. TakesSchema L.answer text.now plan.declared.schema) }
    ensures payload { IfOk result (λ plan. plan.payload ≡ node ++ text.now) }
    ensures refused { IfErr result (λ why. IsTextCause L.answer text.now why) }
{
    let schema = match take_schema(alloc, text, native) {
        Ok(schema) => schema,
        Err(refusal) => return Err(refusal_kind(refusal)),
    };
    match payload_of(alloc, &node, text) {
        Ok(payload) => Ok(Plan {
            declared: Declared { node, schema },
            payload,
        }),
        Err(AllocError) => Err(CreateKind::Memory),
    }
}

/// The id of a node, and a text behind it.
fn payload_of(alloc: Global, node: &[u8; 32], text: &[u8]) -> Result<ByteList, AllocError>
    ensures { IfOk result (λ payload. payload ≡ node.now ++ text.now) }
{
    let mut payload = Vec::new(alloc);
    payload.extend_from_slice(node)?;
    payload.extend_from_slice(text)?;
    Ok(ByteList::from_vec(payload))
}

/// Empties the part Updates, and opens it under a schema.
fn open_empty<D: Disk, L: Relation, C: Checks<L>>(
    alloc: Global,
    declared: Declared,
    mut updates: D,
    native: Native<L, C>,
) -> Result<Replica<D, L, C>, NotOpened<D, L, C>>
    requires { TakesSchema L.answer declared.schema.text declared.schema }
    ensures declared { IfOk result (λ replica. (replica.node ≡ declared.node)
        × (replica.history.schema ≡ declared.schema)) }
    ensures members { IsTrue (D.state updates).tells → IfOk result (λ replica. replica.history.members ≡ []) }
    ensures clean { IsTrue (D.state updates).tells → IfOk result (λ replica. IsClean replica.log.end replica.log.disk) }
    ensures empty { IsTrue (D.state updates).tells → IfOk result (λ replica. replica.log.disk.seen ≡ []) }
    ensures disk { IfOk result (λ replica. IsSameDisk (D.state updates) replica.log.disk) }
    ensures disk_err { IfErr result (λ fault. IsSameDisk (D.state updates) (D.state fault.updates)) }
    ensures later { IfOk result (λ replica. D.faults updates ≤ replica.log.faults) }
    ensures later_err { IfErr result (λ fault. D.faults updates ≤ D.faults fault.updates) }
    ensures failed { IfErr result (λ fault. fault.why ≡ DiskError.DiskFault
        → Rose (D.faults updates) (D.faults fault.updates)) }
{
    one_logset();
    whole_logset();
    match cut_synced(&mut updates, 0) {
        Ok(()) => {}
        Err(DiskFault) => {
            return Err(NotOpened {
                why: DiskError::DiskFault,
                updates,
                native,
            });
        }
    }
    match open_declared(&OneThread, alloc, declared, updates, native) {
        Ok(replica) => Ok(replica),
        Err(fault) => Err(fault),
    }
}

/// What an error over a disk is where a store is created.
fn creating_kind(error: DiskError) -> CreateKind
    ensures { result ≡ creating_kind error }
{
    match error {
        DiskError::DiskFault => CreateKind::DiskFault,
        DiskError::Memory => CreateKind::Memory,
    }
}

/// What a refusal of a text is where a store is created.
fn refusal_kind(refusal: SchemaRefusal) -> CreateKind
    ensures { result ≡ refusal_kind refusal }
{
    match refusal {
        SchemaRefusal::Schema(fault) => CreateKind::BadSchema(fault),
        SchemaRefusal::NotConfluent {
            schema,
            which,
            example,
        } => CreateKind::NotConfluent {
            schema,
            which,
            example,
        },
        SchemaRefusal::Memory => CreateKind::Memory,
    }
}
