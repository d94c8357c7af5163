/// What a line does, as its first word tells.
#[derive(Clone, Copy)]
pub(crate) enum Act {
    Make,
    Open,
    Carry,
    Run,
    Cut,
    Feed,
    Stop,
    Restart,
}
