//! Reading in chunks, and to the end of the input.
//!
//! The clauses on bytes hold where the reader reports the bytes that it has left. An error of the
//! reader is the fault `Input`, and is not retried.

ghost use Rattle.std.specs.Prelude.{◌≡◌, ◌<◌, ◌≤◌, ◌⊎◌, ◌++◌, length, take, ◌+◌, ◌*◌, max};
ghost use Rattle.std.specs.Prelude.{vec_capacity, vec_len, OnOk, OnErr, IfOk, IfErr, IfSome};
ghost use Rattle.std.specs.Io.KnownBytes.{Consumes, IsAtEnd, Keeps};
ghost use Rattle.sixel_base.specs.declared.error.SixelError.TheVariants.{OutOfMemory};
ghost use Rattle.sixel.specs.declared.fault.Fault.TheVariants.{Sixel, Input};

use crate::fault::Fault;
use std::alloc::{AllocError, Global};
use std::io::Read;

/// The number of bytes that [`read_to_end`] reads at once.
const CHUNK_LEN: usize = 65536;

/// Reads the input to its end.
///
/// `expected` is the number of bytes that the input is likely to have, or 0. It saves memory if it
/// is right. If not, it never makes the buffer larger than twice what was read.
pub fn read_to_end<R: Read>(alloc: Global, input: &mut R, expected: usize) -> Result<Vec<u8>, Fault>
    ensures bytes { IfOk result (λ bytes.
        IfSome (R.remaining input.old) (λ all. bytes.items ≡ all)) }
    ensures at_end { OnOk result (IsAtEnd (R.remaining input.new)) }
    ensures error { IfErr result (λ fault. (fault ≡ Input) ⊎ (fault ≡ Sixel OutOfMemory)) }
{
    let mut bytes = Vec::new(alloc);
    let mut chunk = [0; CHUNK_LEN];
    'reads: for _ in 0..u64::MAX {
        let count = read_chunk(input, &mut chunk)?;
        if count == 0 {
            return Ok(bytes);
        }
        append(&mut bytes, &chunk[..count], expected)?;
    }
    Err(Fault::Input)
}

/// Reads the next chunk of the input into the buffer, and returns its length.
///
/// The length is 0 at the end of the input, and where the buffer is empty.
fn read_chunk<R: Read>(input: &mut R, buffer: &mut [u8]) -> Result<usize, Fault>
    ensures within { IfOk result (λ count. count ≤ length buffer.new) }
    ensures bytes { IfOk result (λ count.
        Consumes (R.remaining input.old) (R.remaining input.new) (take count buffer.new)) }
    ensures at_end { IfOk result (λ count. count ≡ 0 → 0 < length buffer.old
        → IsAtEnd (R.remaining input.new)) }
    ensures unread { OnErr result (Keeps (R.remaining input.old) (R.remaining input.new)) }
    ensures error { IfErr result (λ fault. fault ≡ Input) }
{
    match input.read(buffer) {
        Ok(count) => Ok(count),
        Err(_) => Err(Fault::Input),
    }
}

/// Appends a chunk to bytes that are expected to become this many.
fn append(bytes: &mut Vec<u8>, chunk: &[u8], expected: usize) -> Result<(), AllocError>
    ensures { OnOk result (bytes.new.items ≡ bytes.old.items ++ chunk.now) }
{
    reserve(bytes, chunk.len(), expected)?;
    bytes.extend_from_slice(chunk)
}

/// Reserves capacity for a chunk of bytes that are expected to become this many.
///
/// A full buffer is doubled, or grows to the expected size where that is less. If that is too small
/// for the chunk, the capacity stays.
fn reserve(bytes: &mut Vec<u8>, chunk_len: usize, expected: usize) -> Result<(), AllocError>
    ensures items { bytes.new.items ≡ bytes.old.items }
    ensures capacity { vec_capacity bytes.new
        ≤ max (vec_capacity bytes.old) (2 * vec_len bytes.old + chunk_len) }
    ensures expected { vec_capacity bytes.new ≤ max (vec_capacity bytes.old) expected }
{
    let left = expected.saturating_sub(bytes.len());
    if bytes.capacity() - bytes.len() < chunk_len && chunk_len <= left {
        bytes.reserve_exact(left.min(bytes.len().saturating_add(chunk_len)))?;
    }
    Ok(())
}
