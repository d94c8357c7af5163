//! Waiting for connections.

ghost use Rattle.std.specs.Prelude.{◌≡◌, IfOk};

use crate::patient_stream::PatientStream;
use crate::tcp_link::TcpLink;
use crate::tcp_net::link_over;
use std::io::{ErrorKind, Write};
use std::net::TcpListener;
use std::time::Duration;
use std::{io, thread};

/// For how many milliseconds nothing is accepted where the system wants for something.
const PAUSE: u64 = 100;

/// How many such pauses there are until a connection comes, which makes ten minutes.
const MAX_PAUSES: u64 = 6000;

/// The errors of Linux for what the system wants for now: files, of this process (EMFILE) and of all (ENFILE), buffers
/// (ENOBUFS), memory (ENOMEM), leave by a firewall (EPERM), a network that is up (ENETDOWN).
const WANTS: [i32; 6] = [24, 23, 105, 12, 1, 100];

/// The errors of Linux that are about the connection that came: ENONET, EPROTO, ENOPROTOOPT, EOPNOTSUPP, ENETUNREACH,
/// ENETRESET, ECONNABORTED, ECONNRESET, ETIMEDOUT, EHOSTDOWN, EHOSTUNREACH.
const PASSES: [i32; 11] = [64, 71, 92, 95, 101, 102, 103, 104, 110, 112, 113];

/// What an error of a call that accepts says of the next one.
#[derive(Drop)]
enum Next {
    /// It may go well at once.
    Passing,
    /// It may go well later.
    Wanting,
    /// It fails too.
    Lasting,
}

/// What an error says of the next call.
fn next_call(error: &io::Error) -> Next {
    match error.raw_os_error() {
        Some(number) if WANTS.contains(&number) => Next::Wanting,
        Some(number) if PASSES.contains(&number) => Next::Passing,
        _ if error.kind() == ErrorKind::Interrupted => Next::Passing,
        _ => Next::Lasting,
    }
}

/// Waits for a connection. What fails for a connection that came is passed over with it, and where the system wants for
/// something, it is tried again after a pause, which is told to `explain` once. Any other error ends the waiting, and
/// so do ten minutes of pauses.
pub(crate) fn accept_next<W: Write>(
    rt: &HostRuntime,
    explain: &mut W,
    listener: &Option<TcpListener>,
) -> io::Result<TcpLink<PatientStream<HostRuntime>>>
    ensures { IfOk result (λ link. link.faults ≡ 0) }
{
    let Some(listener) = listener else {
        return Err(io::Error::from(ErrorKind::NotConnected));
    };
    let mut pauses = 0;
    for _ in 0..u64::MAX {
        match listener.accept() {
            Ok((stream, _)) => {
                if let Ok(link) = link_over(rt, stream) {
                    return Ok(link);
                }
            }
            Err(error) => match next_call(&error) {
                Next::Passing => {}
                Next::Wanting if pauses < MAX_PAUSES => {
                    if pauses == 0 {
                        let _ = writeln!(explain, "bec: accept: {error}; it is tried again");
                    }
                    pauses += 1;
                    thread::sleep(rt, Duration::from_millis(PAUSE));
                }
                _ => return Err(error),
            },
        }
    }
    Err(io::Error::from(ErrorKind::Interrupted))
}
