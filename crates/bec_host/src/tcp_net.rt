ghost use Rattle.std.specs.Prelude.{◌≡◌, ◌≤◌, ◌<◌, ◌+◌, IfOk, OnErr, OnOk};
ghost use Rattle.bec_bytes.specs.Causes.{HasCause, one_more, faults_after};
ghost use Rattle.bec_links.specs.Nets.{HandsOut, after_try, taken_back};
ghost use Rattle.bec_host.specs.Untold.{NetCounts, after_refusal, untold_net};

use crate::accepting::accept_next;
use crate::patient_stream::PatientStream;
use crate::tcp_link::TcpLink;
use bec_bytes::{Counted, Failed};
use bec_links::Net;
use std::alloc::AllocError;
use std::io;
use std::io::{ErrorKind, Write};
use std::marker::Model;
use std::net::{TcpListener, TcpStream, ToSocketAddrs};
use std::time::Duration;

/// How many seconds each address of a name is called for.
const CALL_LIMIT: u64 = 20;

/// A net over TCP. It tells nothing of the bytes.
///
/// An address is an IP address or a host's name, and a port. Each call that fails is told in a sentence
/// to `explain`, as a rule standard error, whose own errors are passed over.
#[derive(Drop)]
pub struct TcpNet<W: Write + Drop> {
    /// The system's network and its clock.
    rt: HostRuntime,
    /// Where faults are explained.
    explain: W,
    /// Where connections are waited for.
    listener: Option<TcpListener>,
    /// How many links are out.
    out: u64,
    /// How many calls failed.
    failed: u64,
    /// How many calls failed, and how many links came back that had failed.
    faults: u64,
}

impl<W: Write + Drop> Model for TcpNet<W> {
    ghost Value = { NetCounts };

    ghost view = { λ n. record { out = n.out; failed = n.failed; faults = n.faults } };
}

impl<W: Write + Drop> TcpNet<W> {
    /// A net over the system's network, which waits at no address yet.
    pub fn new(rt: HostRuntime, explain: W) -> TcpNet<W>
        ensures { result ≡ record { out = 0; failed = 0; faults = 0 } }
    {
        TcpNet {
            rt,
            explain,
            listener: None,
            out: 0,
            failed: 0,
            faults: 0,
        }
    }

    /// Hands a connection out, where there is one, and counts that it is out.
    fn hand_out(
        &mut self,
        place: &str,
        connected: io::Result<TcpLink<PatientStream<HostRuntime>>>,
    ) -> Result<TcpLink<PatientStream<HostRuntime>>, Failed>
        requires { IfOk connected (λ link. link.faults ≡ 0) }
        ensures handed { OnOk result (self.new ≡ record self.old { out = self.old.out + 1 }) }
        ensures clean { IfOk result (λ link. link.faults ≡ 0) }
        ensures refused { OnErr result (self.new ≡ after_refusal self.old) }
        ensures later { self.old.faults ≤ self.new.faults }
    {
        match connected {
            Ok(link) if self.out < u64::MAX => {
                self.out += 1;
                Ok(link)
            }
            Ok(_) => Err(self.fault(place, &io::Error::from(ErrorKind::QuotaExceeded))),
            Err(error) => Err(self.fault(place, &error)),
        }
    }

    /// Counts a call that failed, and explains it by the address that it was about.
    fn fault(&mut self, place: &str, error: &io::Error) -> Failed
        ensures counted { self.new ≡ after_refusal self.old }
        ensures later { self.old.faults ≤ self.new.faults }
    {
        let _ = writeln!(self.explain, "bec: {place}: {error}");
        self.failed = self.failed.saturating_add(1);
        self.faults = self.faults.saturating_add(1);
        Failed
    }
}

/// A link over a connection, whose small pieces go out at once: the sides answer one another, so that
/// a piece that waits for more would cost each turn a delay.
pub(crate) fn link_over(
    clock: &HostRuntime,
    stream: TcpStream,
) -> io::Result<TcpLink<PatientStream<HostRuntime>>>
    ensures { IfOk result (λ link. link.faults ≡ 0) }
{
    stream.set_nodelay(true)?;
    match clock.clone() {
        Ok(clock) => Ok(TcpLink::new(PatientStream::new(stream, clock))),
        Err(AllocError) => Err(io::Error::from(ErrorKind::OutOfMemory)),
    }
}

/// Connects to an address. Each that a name has is called for a while, one after the other, until one answers.
fn call(rt: &HostRuntime, address: &str) -> io::Result<TcpStream> {
    let mut refused = io::Error::from(ErrorKind::NotFound);
    for place in address.to_socket_addrs(rt)? {
        match TcpStream::connect_timeout(rt, &place, Duration::from_secs(CALL_LIMIT)) {
            Ok(stream) => return Ok(stream),
            Err(error) => refused = error,
        }
    }
    Err(refused)
}

impl<W: Write + Drop> Counted for TcpNet<W> {
    ghost faults = { λ n. n.faults };
}

impl<W: Write + Drop> Net for TcpNet<W> {
    type L = TcpLink<PatientStream<HostRuntime>>;

    ghost state = { untold_net };

    /// Waits for connections at an address. Where that fails, it waits where it waited before; an address
    /// that it waits at already is in use.
    fn listen(&mut self, address: &str) -> Result<(), Failed> {
        match TcpListener::bind(&self.rt, address) {
            Ok(listener) => {
                self.listener = Some(listener);
                Ok(())
            }
            Err(error) => Err(self.fault(address, &error)),
        }
    }

    fn accept(&mut self) -> Result<TcpLink<PatientStream<HostRuntime>>, Failed> {
        let connected = accept_next(&self.rt, &mut self.explain, &self.listener);
        self.hand_out("accept", connected)
    }

    fn dial(&mut self, address: &str) -> Result<TcpLink<PatientStream<HostRuntime>>, Failed> {
        let connected = match call(&self.rt, address) {
            Ok(stream) => link_over(&self.rt, stream),
            Err(error) => Err(error),
        };
        self.hand_out(address, connected)
    }

    fn put_back(&mut self, link: TcpLink<PatientStream<HostRuntime>>) {
        if link.is_faulty() {
            self.faults = self.faults.saturating_add(1);
        }
        self.out -= 1;
        link.into_stream().end();
    }
}
