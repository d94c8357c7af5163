//! What a command may do with the directories that it opens.

use std::env;

/// For how many seconds a command waits for another one, where the environment does not say.
const USUAL_WAIT: u32 = 5;

/// How parts are opened.
#[derive(Clone, Copy)]
pub enum Access {
    /// For reading alone: nothing is locked, made or written.
    Reading,
    /// For reading and writing, each part locked.
    Writing {
        /// For how many seconds a part is waited for that another program has.
        wait: u32,
    },
}

/// The access that the environment asks for: `BEC_READ_ONLY=1` for reading alone, and `BEC_WAIT` for so many seconds of
/// waiting, at most 9,999. Without it they are five.
pub fn wanted_access(rt: &(impl std::rt::Env + AllocGlobal)) -> Access {
    if env::var(rt, "BEC_READ_ONLY").is_ok_and(|value| value.as_str() == "1") {
        return Access::Reading;
    }
    Access::Writing { wait: wait(rt) }
}

/// For how many seconds a command waits.
fn wait(rt: &(impl std::rt::Env + AllocGlobal)) -> u32 {
    let Ok(named) = env::var(rt, "BEC_WAIT") else {
        return USUAL_WAIT;
    };
    match named.as_str().parse::<u32>() {
        Ok(seconds) if seconds <= 9_999 => seconds,
        _ => USUAL_WAIT,
    }
}
