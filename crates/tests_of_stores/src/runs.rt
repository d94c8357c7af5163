//! Runs of the program one after another over one shelf in memory.

ghost use Rattle.std.specs.Prelude.{◌≡◌, IfOk, IsTrue};
ghost use Rattle.bec_disk.specs.Shelved.{shelf_of};
ghost use Rattle.key_directory.specs.Parts.{IsHome};

use crate::stopping::{Place, StoppingShelf, left_of};
use bec_bytes::{MemSink, MemSource};
use bec_disk::{MemShelf, Shelf};
use bec_node::{Outside, run_beside};
use rand_pcg::Pcg32;
use record_check::OneThread;
use std::alloc::{AllocError, Global};
use std::mem;

/// A run: its words, its input, and a number from which its random words are drawn.
pub type Run<'a> = (&'a str, &'a [u8], u64);

/// What a run answers.
#[derive(Drop)]
pub struct Said {
    /// Its status.
    pub status: u8,
    /// What it prints.
    pub bytes: Vec<u8>,
}

/// The words of a command line.
fn words(alloc: Global, line: &str) -> Result<Vec<String>, AllocError> {
    let mut words = Vec::new(alloc);
    for word in line.split_whitespace() {
        words.push(String::from_str(alloc, word)?)?;
    }
    Ok(words)
}

/// What stands outside of a run in memory over a shelf.
type Around<H> = Outside<H, Pcg32, MemSource>;

/// What stands outside of this run over a shelf.
fn around<H>(shelf: H, run: &Run<'_>, input: Vec<u8>, alloc: Global) -> Around<H>
    ensures { result.shelf ≡ shelf }
{
    Outside {
        shelf,
        random: Pcg32::new(run.2, 54),
        input: MemSource::new(input, Vec::new(alloc)),
    }
}

/// Runs the program over what stands outside.
fn answer_over<H: Shelf>(
    alloc: Global,
    outside: &mut Around<H>,
    line: &str,
) -> Result<Said, AllocError>
    requires home { IsTrue (H.state outside.old.shelf).tells → IsHome (H.state outside.old.shelf) }
    ensures home { IsTrue (H.state outside.old.shelf).tells → IsHome (H.state outside.new.shelf) }
{
    let words = words(alloc, line)?;
    let mut out = MemSink::new(alloc, Vec::new(alloc));
    let status = run_beside(&OneThread, alloc, &words, outside, &mut out);
    let bytes = out.bytes().to_vec(alloc)?;
    Ok(Said { status, bytes })
}

/// Runs the program over a shelf.
pub fn answer(alloc: Global, shelf: &mut MemShelf, run: &Run<'_>) -> Result<Said, AllocError>
    requires home { IsHome (shelf_of shelf.old) }
    ensures home { IsHome (shelf_of shelf.new) }
{
    let input = Vec::from_slice(alloc, run.1)?;
    let mut outside = around(mem::replace(shelf, MemShelf::new(alloc)), run, input, alloc);
    let said = answer_over(alloc, &mut outside, run.0);
    *shelf = outside.shelf;
    said
}

/// Whether each of these runs is done.
pub fn begins(alloc: Global, shelf: &mut MemShelf, runs: &[Run<'_>]) -> Result<bool, AllocError>
    requires home { IsHome (shelf_of shelf.old) }
    ensures home { IsHome (shelf_of shelf.new) }
{
    'runs: for run in runs {
        if answer(alloc, shelf, run)?.status != 0 {
            return Ok(false);
        }
    }
    Ok(true)
}

/// Where a disk stops: the part whose disk it is, after how many calls, and by which choice a crash leaves something.
pub type Stop = (Place, u64, u64);

/// What a run answers over a copy of a shelf of which a disk stops, and what a crash leaves then.
pub fn crashed(
    alloc: Global,
    base: &MemShelf,
    stop: Stop,
    run: &Run<'_>,
) -> Result<(Said, MemShelf), AllocError>
    requires { IsHome (shelf_of base.now) }
    ensures { IfOk result (λ r. IsHome (shelf_of r.1)) }
{
    let (place, calls, choice) = stop;
    let input = Vec::from_slice(alloc, run.1)?;
    let shelf = StoppingShelf::over(alloc, left_of(base, 1)?, place, calls);
    let mut outside = around(shelf, run, input, alloc);
    let said = answer_over(alloc, &mut outside, run.0)?;
    Ok((said, outside.shelf.left(choice)?))
}
