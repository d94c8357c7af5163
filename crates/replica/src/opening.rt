//! Opening a store.

ghost use Rattle.std.specs.Prelude.{◌≡◌, ◌≤◌, ◌⊎◌, ℕ, List, Err, false, length, IsTrue, IfOk, IfErr};
ghost use Rattle.bec_bytes.specs.Causes.{Rose};
ghost use Rattle.bec_disk.specs.Disk.{IsSettled};
ghost use Rattle.confluence_test.specs.Taking.{TakesSchema};
ghost use Rattle.schema.specs.Data.{SchemaData};
ghost use Rattle.update_log.specs.Log.{IsClean, KeepsLogset};
ghost use Rattle.update_log.specs.Logset.{IsLogset};
ghost use Rattle.replica.specs.Faults.{declaring_kind, opening_kind};
ghost use Rattle.replica.specs.Opening.{IsOpenCause, IsOpened, KeepsStore};
ghost use Rattle.replica.specs.Payload.{DeclaresBoth, DeclaresStore};

use crate::open_fault::{OpenFault, OpenKind};
use crate::replica::Replica;
use bec_disk::{Disk, DiskError, Gated, read_gated};
use confluence_test::{SchemaRefusal, accepted_is_unlimited, take_schema, taken_or_refused};
use history::{History, NoHistory};
use record_check::Verifier;
use row_check::{Checks, Native, Relation};
use schema::Schema;
use schema_text::one_schema;
use std::alloc::Global;
use update_log::{Log, LogFault};

/// Opens the store of two parts that are settled. What stands behind the longest front of records that are a closed
/// list under the schema's rule is cut. The verifier checks the records, and each update is judged once.
#[tactic(auto, using(crate::proofs::Mapped::open_cause, crate::proofs::Mapped::open_disk))]
pub fn open_store<V: Verifier, D: Disk, L: Relation, C: Checks<L>>(
    verifier: &V,
    alloc: Global,
    schema: &mut D,
    updates: D,
    native: Native<L, C>,
) -> Result<Replica<D, L, C>, OpenFault<D, L, C>>
    requires schema { IsTrue (D.state schema.old).tells → IsSettled (D.state schema.old) }
    requires updates { IsTrue (D.state updates).tells → IsSettled (D.state updates) }
    ensures opened { IfOk result (λ replica. IsOpened L.answer (D.state schema.old) (D.state updates) replica) }
    ensures sure { IfOk result (λ replica. replica.log.is_unsure ≡ false) }
    ensures refused { IfErr result (λ fault. IsOpenCause L.answer (D.state schema.old) fault.why) }
    ensures same { D.state schema.new ≡ D.state schema.old }

    // A crash at any moment of it leaves the list that stood there in front, whatever it answers.
    ensures any_moment { IfOk result (λ replica. KeepsStore L.answer (D.state schema.old) (D.state updates)
        replica.log.disk) }
    ensures any_moment_err { IfErr result (λ fault. KeepsStore L.answer (D.state schema.old) (D.state updates)
        (D.state fault.updates)) }
    ensures schema_later { D.faults schema.old ≤ D.faults schema.new }
    ensures later { IfOk result (λ replica. D.faults updates ≤ replica.log.faults) }
    ensures later_err { IfErr result (λ fault. D.faults updates ≤ D.faults fault.updates) }
    ensures failed { IfErr result (λ fault. fault.why ≡ OpenKind.DiskFault
        → Rose (D.faults schema.old) (D.faults schema.new) ⊎ Rose (D.faults updates) (D.faults fault.updates)) }
{
    one_schema();
    let declared = match read_declared(alloc, schema, &native) {
        Ok(declared) => declared,
        Err(why) => {
            return Err(OpenFault {
                why,
                updates,
                native,
            });
        }
    };
    match open_declared(verifier, alloc, declared, updates, native) {
        Ok(replica) => Ok(replica),
        Err(
            NotOpened {
                why,
                updates,
                native,
            },
        ) => Err(OpenFault {
            why: opening_kind(why),
            updates,
            native,
        }),
    }
}

/// What the part Schema declares.
#[derive(Drop)]
pub struct Declared {
    /// The id of the node.
    pub node: [u8; 32],
    /// The schema.
    pub schema: Schema,
}

/// What the part Schema declares, or why there is no store.
#[tactic(auto, using(crate::proofs::Mapped::open_cause, crate::proofs::Mapped::open_disk))]
fn read_declared<D: Disk, L: Relation, C: Checks<L>>(
    alloc: Global,
    part: &mut D,
    native: &Native<L, C>,
) -> Result<Declared, OpenKind>
    ensures declared { IsTrue (D.state part.old).tells
        → IfOk result (λ declared. DeclaresStore L.answer (D.state part.old).seen declared.node declared.schema) }
    ensures taken { IfOk result (λ declared. TakesSchema L.answer declared.schema.text declared.schema) }
    ensures refused { IfErr result (λ why. IsOpenCause L.answer (D.state part.old) why) }
    ensures same { D.state part.new ≡ D.state part.old }
    ensures later { D.faults part.old ≤ D.faults part.new }
    ensures failed { IfErr result (λ why. why ≡ OpenKind.DiskFault → Rose (D.faults part.old) (D.faults part.new)) }
{
    match read_gated(alloc, part) {
        Ok(Gated::Absent) => Err(OpenKind::NoStore),
        Ok(Gated::Damaged) => Err(OpenKind::BadSchema),
        Ok(Gated::Whole(payload)) => read_declaration(alloc, payload.as_slice(), native),
        Err(error) => Err(opening_kind(error)),
    }
}

/// What a payload declares: the id of a node, and the text of a schema.
fn read_declaration<L: Relation, C: Checks<L>>(
    alloc: Global,
    payload: &[u8],
    native: &Native<L, C>,
) -> Result<Declared, OpenKind>
    ensures declared { IfOk result (λ declared. DeclaresBoth L.answer payload.now declared.node declared.schema) }
    ensures none { result ≡ Err OpenKind.BadSchema → (node : List ℕ) (schema : SchemaData)
        → DeclaresBoth L.answer payload.now node schema → ⊥ }
    ensures only { IfErr result (λ why. (why ≡ OpenKind.BadSchema) ⊎ (why ≡ OpenKind.Memory)) }
{
    taken_or_refused();
    if payload.len() < 32 {
        return Err(OpenKind::BadSchema);
    }
    let mut node = [0; 32];
    let parts = payload.split_at(32);
    node.copy_from_slice(parts.0);
    match take_schema(alloc, parts.1, native) {
        Ok(schema) => Ok(Declared { node, schema }),
        Err(refusal) => Err(declaring_kind(refusal)),
    }
}

/// What a refusal of a text is where a store is opened.
fn declaring_kind(refusal: SchemaRefusal) -> OpenKind
    ensures { result ≡ declaring_kind refusal }
{
    match refusal {
        SchemaRefusal::Schema(_) => OpenKind::BadSchema,
        SchemaRefusal::NotConfluent { .. } => OpenKind::BadSchema,
        SchemaRefusal::Memory => OpenKind::Memory,
    }
}

/// A log and a history that were not opened: the disk failed or memory ran out, and what was handed over.
#[derive(Drop)]
pub struct NotOpened<D: Disk, L: Relation, C: Checks<L>> {
    /// Why they were not opened.
    pub why: DiskError,
    /// The disk of the part Updates.
    pub updates: D,
    /// The native checks.
    pub native: Native<L, C>,
}

/// Opens the log under a schema, and the history of what stands there.
#[tactic(auto, using(crate::proofs::Declaring::still_taken))]
pub fn open_declared<V: Verifier, D: Disk, L: Relation, C: Checks<L>>(
    verifier: &V,
    alloc: Global,
    declared: Declared,
    updates: D,
    native: Native<L, C>,
) -> Result<Replica<D, L, C>, NotOpened<D, L, C>>
    requires taken { TakesSchema L.answer declared.schema.text declared.schema }
    requires updates { IsTrue (D.state updates).tells → IsSettled (D.state updates) }
    ensures declared { IfOk result (λ replica. (replica.node ≡ declared.node)
        × (replica.history.schema ≡ declared.schema)) }
    ensures list { IsTrue (D.state updates).tells
        → IfOk result (λ replica. IsLogset declared.schema.rule (D.state updates).seen replica.history.members) }
    ensures clean { IsTrue (D.state updates).tells → IfOk result (λ replica. IsClean replica.log.end replica.log.disk) }
    ensures sure { IfOk result (λ replica. replica.log.is_unsure ≡ false) }
    ensures size { IsTrue (D.state updates).tells
        → IfOk result (λ replica. replica.log.end ≤ length (D.state updates).seen) }
    ensures any_moment { IfOk result (λ replica. KeepsLogset declared.schema.rule (D.state updates) replica.log.disk) }
    ensures any_moment_err { IfErr result (λ fault. KeepsLogset declared.schema.rule (D.state updates)
        (D.state fault.updates)) }
    ensures later { IfOk result (λ replica. D.faults updates ≤ replica.log.faults) }
    ensures later_err { IfErr result (λ fault. D.faults updates ≤ D.faults fault.updates) }
    ensures failed { IfErr result (λ fault. fault.why ≡ DiskError.DiskFault
        → Rose (D.faults updates) (D.faults fault.updates)) }
{
    accepted_is_unlimited();
    let Declared { node, schema } = declared;
    let (log, graph) = match Log::open_log(verifier, alloc, updates, schema.rule()) {
        Ok(opened) => opened,
        Err(fault) => {
            let LogFault { why, disk } = fault;
            return Err(NotOpened {
                why,
                updates: disk,
                native,
            });
        }
    };
    match History::over(alloc, schema, native, graph) {
        Ok(history) => Ok(Replica { node, history, log }),
        Err(NoHistory { native }) => Err(NotOpened {
            why: DiskError::Memory,
            updates: log.into_disk(),
            native,
        }),
    }
}

/// What an error over a disk is where a store is opened.
fn opening_kind(error: DiskError) -> OpenKind
    ensures { result ≡ opening_kind error }
{
    match error {
        DiskError::DiskFault => OpenKind::DiskFault,
        DiskError::Memory => OpenKind::Memory,
    }
}
