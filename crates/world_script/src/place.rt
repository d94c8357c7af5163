/// Where a line of a script is.
#[derive(Clone, Copy)]
pub(crate) struct Place {
    /// The number of the line, from 1 in the whole script.
    pub number: u32,
    /// The replicas that the world has.
    pub replicas: u32,
    /// The sessions that earlier lines open.
    pub opened: u32,
}
