//! Runs of the program over one shelf and a net, both in memory.

ghost use Rattle.bec_disk.specs.Shelved.{shelf_of};
ghost use Rattle.key_directory.specs.Parts.{IsHome};

use bec_bytes::{MemSink, MemSource};
use bec_disk::MemShelf;
use bec_links::{MemLink, MemNet, Net};
use bec_node::{Outside, run};
use rand_pcg::Pcg32;
use std::alloc::{AllocError, Global};
use std::mem;
use std::sync::Wait;
use std::thread::Threads;

/// What a run answers, and what it put on the link.
#[derive(Drop)]
pub struct Said {
    /// Its status.
    pub status: u8,
    /// What it prints.
    pub text: Vec<u8>,
    /// What it put on the link, where it took it.
    pub sent: Vec<u8>,
}

/// The text of the schema.
const MEMBERS: &[u8] = b"DATABASE club\nTABLE member\nCOLUMN name TEXT 1 40\nSAMPLE \"Ann\"\n";

/// Stores in A, B and C, and in B and C a key and an update. The keys are drawn from the same random words, and differ
/// by their widths.
const BEGIN: &[(&str, &[u8])] = &[
    ("init A", MEMBERS),
    ("init B", MEMBERS),
    ("init C", MEMBERS),
    ("keygen B --height 5 --width 1", b""),
    ("keygen C --height 5 --width 2", b""),
    ("apply B", b"INSERT member \"Ann\"\n"),
    ("apply C", b"INSERT member \"Ben\"\n"),
];

/// The words of a command line.
fn words(alloc: Global, line: &str) -> Result<Vec<String>, AllocError> {
    let mut words = Vec::new(alloc);
    for word in line.split_whitespace() {
        words.push(String::from_str(alloc, word)?)?;
    }
    Ok(words)
}

/// Runs the program over a shelf and a net. It answers the status, and what is printed.
pub fn run_over<T: Threads + Wait + Sync, N: Net>(
    rt: &T,
    alloc: Global,
    shelf: &mut MemShelf,
    net: &mut N,
    line: &str,
    input: &[u8],
) -> Result<(u8, Vec<u8>), AllocError>
    requires home { IsHome (shelf_of shelf.old) }
    ensures home { IsHome (shelf_of shelf.new) }
{
    let words = words(alloc, line)?;
    let input = MemSource::new(Vec::from_slice(alloc, input)?, Vec::new(alloc));
    let mut outside = Outside {
        shelf: mem::replace(shelf, MemShelf::new(alloc)),
        random: Pcg32::new(42, 54),
        input,
    };
    let mut out = MemSink::new(alloc, Vec::new(alloc));
    let status = run(rt, alloc, &words, &mut outside, net, &mut out);
    *shelf = outside.shelf;
    Ok((status, out.bytes().to_vec(alloc)?))
}

/// Runs the program over a shelf and a net whose one link gives certain bytes and whose call of a number, counted from
/// 1, fails.
pub fn answer<T: Threads + Wait + Sync>(
    rt: &T,
    alloc: Global,
    shelf: &mut MemShelf,
    line: &str,
    input: &[u8],
    link: (&[u8], u32),
) -> Result<Said, AllocError>
    requires home { IsHome (shelf_of shelf.old) }
    ensures home { IsHome (shelf_of shelf.new) }
{
    let mut links = Vec::new(alloc);
    links.push(MemLink::new(alloc, Vec::from_slice(alloc, link.0)?, Vec::new(alloc)))?;
    let mut net = MemNet::new(alloc, links, Vec::from_slice(alloc, &[link.1])?);
    let (status, text) = run_over(rt, alloc, shelf, &mut net, line, input)?;
    let sent = match net.returned() {
        0 => Vec::new(alloc),
        _ => net.given(0).to_vec(alloc)?,
    };
    Ok(Said { status, text, sent })
}

/// Whether each of the lines with which the tests begin is done.
pub fn begins<T: Threads + Wait + Sync>(
    rt: &T,
    alloc: Global,
    shelf: &mut MemShelf,
) -> Result<bool, AllocError>
    requires home { IsHome (shelf_of shelf.old) }
    ensures home { IsHome (shelf_of shelf.new) }
{
    for number in 0..BEGIN.len() {
        let (line, input) = BEGIN[number];
        if answer(rt, alloc, shelf, line, input, (b"", 0))?.status != 0 {
            return Ok(false);
        }
    }
    Ok(true)
}
