use crate::Event;

/// What a line of a script says, with its number, from 1 in the whole script.
#[derive(Drop)]
pub enum Line {
    /// One event.
    One { line: u32, event: Event },
    /// Carries of a session forward and back by turns, until both find nothing.
    Run { line: u32, session: u32 },
}
