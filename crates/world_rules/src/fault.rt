/// Why a replica is not created.
#[derive(Clone, Copy)]
pub enum SiteFault {
    /// The text declares no schema.
    BadSchema,
    /// An invariant of the schema does not survive merging.
    NotConfluent,
    /// Memory ran out.
    Memory,
}
