ghost use Rattle.bec_bytes.specs.Causes.{HasCause};
ghost use Rattle.bec_bytes.specs.Moved.{FillsFrom, TakesAll};

use crate::failed::Failed;
use crate::sink::Sink;
use crate::source::Source;

/// Reads until `buf` is full or the input ends, and answers the number read. `Failed` comes where a
/// `take` of the source failed; then a front of `buf` holds what was read before.
pub fn read_full<S: Source>(source: &mut S, buf: &mut [u8]) -> Result<usize, Failed>
    ensures bytes { FillsFrom (S.left source.old) (S.left source.new) result buf.new }
    ensures cause { HasCause (S.faults source.old) (S.faults source.new) result }
{
    let mut filled = 0;
    while filled < buf.len() {
        let count = source.take(&mut buf[filled..])?;
        if count == 0 {
            break;
        }
        filled += count;
    }
    Ok(filled)
}

/// Writes all of `bytes`. `Failed` comes where a `put` of the sink failed; then a front of `bytes`
/// went out.
pub fn write_all_of<K: Sink>(sink: &mut K, bytes: &[u8]) -> Result<(), Failed>
    ensures bytes { TakesAll (K.held sink.old) (K.held sink.new) result bytes.now }
    ensures cause { HasCause (K.faults sink.old) (K.faults sink.new) result }
{
    let mut written = 0;
    while written < bytes.len() {
        written += sink.put(&bytes[written..])?;
    }
    Ok(())
}
