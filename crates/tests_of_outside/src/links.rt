ghost use Rattle.std.specs.Prelude.{◌≡◌, ℕ, List, All, IfOk, OnOk};
ghost use Rattle.std.specs.Io.KnownBytes.{Consumes, Appends};
ghost use Rattle.bec_links.specs.Memory.{IsFresh};

use bec_bytes::{Failed, Sink, Source};
use bec_links::{Link, MemLink, MemNet, Net};
use std::alloc::{AllocError, Global};
use std::test::Fail;

fn link(alloc: Global, coming: &[u8], failing: &[u32]) -> Result<MemLink, AllocError>
    ensures { IfOk result IsFresh }
{
    Ok(MemLink::new(alloc, coming.to_vec(alloc)?, failing.to_vec(alloc)?))
}

/// Adds a link, unless there is no memory.
fn add(links: &mut Vec<MemLink>, link: MemLink) -> Result<(), AllocError>
    requires all { All IsFresh links.old.items }
    requires one { IsFresh link }
    ensures { All IsFresh links.new.items }
{
    links.push(link)?;
    Ok(())
}

#[test]
fn takes_and_puts_are_counted_together(rt: HostRuntime) -> Result<(), Fail> {
    let mut link = link(rt.alloc(), b"abcdef", &[2, 4])?;
    let mut buf = [0u8; 4];
    assert_eq!(rt; link.take(&mut buf), Ok(4));
    assert_eq!(rt; &buf, b"abcd");
    assert_eq!(rt; link.put(b"lost"), Err(Failed));
    assert_eq!(rt; link.put(b"xy"), Ok(2));
    assert_eq!(rt; link.receive(&mut buf), Err(Failed));
    assert_eq!(rt; link.receive(&mut buf), Ok(2));
    assert_eq!(rt; &buf, b"efcd");
    assert_eq!(rt; link.send(b"z"), Ok(()));
    assert_eq!(rt; link.take(&mut buf), Ok(0));
    assert_eq!(rt; link.bytes(), b"xyz".as_slice());
    Ok(())
}

/// Sends back what is received, and answers how many bytes that is.
fn echo<K: Link>(link: &mut K) -> Result<usize, Failed>
    ensures echoed { OnOk result ((bytes : List ℕ)
        × Consumes (K.left link.old) (K.left link.new) bytes
        × Appends (K.held link.old) (K.held link.new) bytes) }
{
    let mut buf = [0u8; 4];
    let count = link.receive(&mut buf)?;
    link.send(&buf[..count])?;
    Ok(count)
}

/// Echoes on the next link, and puts it back.
fn serve_next<N: Net>(net: &mut N) -> Result<usize, Failed>
    ensures out { (N.state net.new).out ≡ (N.state net.old).out }
{
    let mut link = net.accept()?;
    let echoed = echo(&mut link);
    net.put_back(link);
    echoed
}

// The first call of the net fails, and the first call of the second link.
#[test]
fn a_server_goes_on_after_a_fault(rt: HostRuntime) -> Result<(), Fail> {
    let alloc = rt.alloc();
    let mut links = Vec::new(alloc);
    add(&mut links, link(alloc, b"one", &[])?)?;
    add(&mut links, link(alloc, b"two", &[1])?)?;
    add(&mut links, link(alloc, b"three", &[])?)?;
    let mut net = MemNet::new(alloc, links, [1].to_vec(alloc)?);
    assert_eq!(rt; serve_next(&mut net), Err(Failed));
    assert_eq!(rt; serve_next(&mut net), Ok(3));
    assert_eq!(rt; serve_next(&mut net), Err(Failed));
    assert_eq!(rt; serve_next(&mut net), Ok(4));
    assert_eq!(rt; serve_next(&mut net), Err(Failed));
    Ok(())
}

#[test]
fn links_come_in_order_and_are_kept_as_they_come_back(rt: HostRuntime) -> Result<(), Fail> {
    let alloc = rt.alloc();
    let mut links = Vec::new(alloc);
    add(&mut links, link(alloc, b"a", &[])?)?;
    add(&mut links, link(alloc, b"b", &[])?)?;
    let mut net = MemNet::new(alloc, links, [2].to_vec(alloc)?);
    net.listen("any")?;
    assert!(rt; net.accept().is_err());
    let mut first = net.accept()?;
    let mut second = net.dial("any")?;
    assert_eq!(rt; echo(&mut first), Ok(1));
    assert_eq!(rt; second.put(b"more"), Ok(4));
    net.put_back(second);
    net.put_back(first);
    assert_eq!(rt; net.given(0), b"more".as_slice());
    assert_eq!(rt; net.given(1), b"a".as_slice());
    assert!(rt; net.accept().is_err());
    Ok(())
}
