use bec_bytes::{Failed, Sink, Source};
use bec_host::{TcpLink, TcpNet};
use bec_links::{Link, Net};
use std::net::{TcpListener, TcpStream};
use std::test::Fail;
use std::time::Duration;

#[test]
fn two_ends_reach_one_another(rt: HostRuntime) -> Result<(), Fail> {
    let alloc = rt.alloc();
    let free = TcpListener::bind(&rt, "127.0.0.1:0")?.local_addr()?;
    let address = format!(in alloc; "{free}")?;
    let mut net = TcpNet::new(rt.clone()?, Vec::new(alloc));
    assert!(rt; net.accept().is_err());
    assert!(rt; net.dial(&address).is_err());
    net.listen(&address)?;
    let mut dialled = net.dial(&address)?;
    let mut accepted = net.accept()?;
    let mut bytes = [0u8; 8];
    assert_eq!(rt; dialled.send(b"ping"), Ok(()));
    assert_eq!(rt; accepted.receive(&mut bytes), Ok(4));
    assert_eq!(rt; &bytes[..4], b"ping".as_slice());
    net.put_back(dialled);
    assert_eq!(rt; accepted.receive(&mut bytes), Ok(0));
    net.put_back(accepted);
    Ok(())
}

#[test]
fn waiting_too_long_and_a_reset_are_faults(rt: HostRuntime) -> Result<(), Fail> {
    let listener = TcpListener::bind(&rt, "127.0.0.1:0")?;
    let stream = TcpStream::connect(&rt, listener.local_addr()?)?;
    stream.set_read_timeout(Some(Duration::from_millis(50)))?;
    let mut link = TcpLink::new(stream);
    let mut bytes = [0u8; 8];
    assert_eq!(rt; link.take(&mut bytes), Err(Failed));
    let (accepted, _) = listener.accept()?;
    assert_eq!(rt; link.put(b"unread"), Ok(6));
    assert_eq!(rt; accepted.peek(&mut bytes)?, 6);
    drop(accepted);
    assert_eq!(rt; link.take(&mut bytes), Err(Failed));
    assert_eq!(rt; link.put(b"more"), Err(Failed));
    Ok(())
}
