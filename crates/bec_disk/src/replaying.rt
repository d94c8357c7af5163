ghost use Rattle.std.specs.Prelude.{◌≡◌, ◌⊎◌, ◌≤◌, ◌<◌, ℕ, List, IfOk, OnOk, OnErr, length, take, slice_index};
ghost use Rattle.bec_disk.specs.Disk.{IsImage, overwritten};
ghost use Rattle.bec_disk.specs.Replay.{IsMixed, begun_with, replayed, seen_after};

use crate::disk_call::DiskCall;
use std::alloc::{AllocError, Global};

/// Puts bytes in the place of those from `at` on.
pub fn overwrite(image: &mut Vec<u8>, at: usize, bytes: &[u8]) -> Result<(), AllocError>
    requires { at ≤ length image.old.items }
    ensures done { OnOk result (image.new.items ≡ overwritten image.old.items at bytes.now) }
    ensures same { OnErr result (image.new.items ≡ image.old.items) }
{
    let within = bytes.len().min(image.len() - at);
    image.extend_from_slice(&bytes[within..])?;
    image[at..at + within].copy_from_slice(&bytes[..within]);
    Ok(())
}

/// One of the images that a crash may leave of a disk that began with `start`, had these calls and
/// reads as `bytes`: for 0 what was synced last, for 1 what is read, and else a mixture by the
/// number.
pub fn crash_image(
    alloc: Global,
    choice: u64,
    start: &[u8],
    calls: &[DiskCall],
    bytes: &[u8],
) -> Result<Vec<u8>, AllocError>
    requires { bytes.now ≡ (replayed (begun_with start.now) calls.now).seen }
    ensures image { IfOk result (λ image. IsImage (replayed (begun_with start.now) calls.now).now image.items) }
    ensures synced { choice ≡ 0
        → IfOk result (λ image. image.items ≡ (replayed (begun_with start.now) calls.now).now.synced) }
    ensures reads { choice ≡ 1 → IfOk result (λ image. image.items ≡ bytes.now) }
{
    let settled = settled_calls(calls);
    let synced = replay(alloc, start, &calls[..settled])?;
    let image = image_of(alloc, choice, synced, bytes)?;
    Ok(image)
}

/// How many calls there were when what was synced last was synced.
fn settled_calls(calls: &[DiskCall]) -> usize
    ensures within { result ≤ length calls.now }
    ensures synced { (start : List ℕ)
        → (replayed (begun_with start) calls.now).now.synced ≡ (replayed (begun_with start)
        (take result calls.now)).seen }
{
    let mut count = calls.len();
    while count > 0 {
        if let DiskCall::Settled = calls[count - 1] {
            return count;
        }
        count -= 1;
    }
    count
}

/// What a disk that began with these bytes reads as after these calls.
fn replay(alloc: Global, start: &[u8], calls: &[DiskCall]) -> Result<Vec<u8>, AllocError>
    ensures { IfOk result (λ bytes. bytes.items ≡ (replayed (begun_with start.now) calls.now).seen) }
{
    let mut bytes = start.to_vec(alloc)?;
    for call in calls {
        apply(&mut bytes, call)?;
    }
    Ok(bytes)
}

/// Does what the call did to the bytes.
fn apply(bytes: &mut Vec<u8>, call: &DiskCall) -> Result<(), AllocError>
    ensures { OnOk result (bytes.new.items ≡ seen_after bytes.old.items call.now) }
{
    match call {
        DiskCall::Wrote(at, written) => {
            if *at > bytes.len() as u64 {
                return Ok(());
            }
            overwrite(bytes, *at as usize, written.as_slice())
        }
        DiskCall::Cut(len) => {
            bytes.truncate(*len as usize);
            Ok(())
        }
        DiskCall::WriteFailed(_, _) | DiskCall::CutFailed(_) | DiskCall::Settled => Ok(()),
    }
}

/// One of the images between what was synced and what is read.
fn image_of(
    alloc: Global,
    choice: u64,
    synced: Vec<u8>,
    bytes: &[u8],
) -> Result<Vec<u8>, AllocError>
    ensures mixed { IfOk result (λ image. IsMixed synced.items bytes.now image.items) }
    ensures synced { choice ≡ 0 → IfOk result (λ image. image.items ≡ synced.items) }
    ensures reads { choice ≡ 1 → IfOk result (λ image. image.items ≡ bytes.now) }
{
    if choice == 0 {
        return Ok(synced);
    }
    if choice == 1 {
        return bytes.to_vec(alloc);
    }
    let len = chosen_len(choice, &synced, bytes);
    let mut image = Vec::new(alloc);
    for i in 0..len {
        image.push(picked(choice, i, &synced, bytes))?;
    }
    Ok(image)
}

/// The length of one of the two.
fn chosen_len(choice: u64, synced: &[u8], bytes: &[u8]) -> usize
    ensures { (result ≡ length synced.now) ⊎ (result ≡ length bytes.now) }
{
    if choice % 2 == 0 {
        return synced.len();
    }
    bytes.len()
}

/// The byte there of one of the two, or 0 behind what was synced.
fn picked(choice: u64, i: usize, synced: &[u8], bytes: &[u8]) -> u8
    ensures { i < length synced.now → (result ≡ slice_index synced.now i)
        ⊎ ((i < length bytes.now) × (result ≡ slice_index bytes.now i)) }
{
    if (choice >> (1 + i % 63)) & 1 == 1 && i < bytes.len() {
        return bytes[i];
    }
    if i < synced.len() {
        return synced[i];
    }
    0
}
