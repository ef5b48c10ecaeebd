//! Writing of whole outputs.
//!
//! The clauses on bytes hold where the writer reports the bytes that it contains. An error of the
//! writer, and a write of 0 bytes, is the fault `Output`, and is not retried.

ghost use Rattle.std.specs.{List.concat, Prelude.map};
ghost use Rattle.sixel.specs.WorkOutput.{IsWhole, Serves};

use crate::fault::Fault;
use std::io::Write;

/// Writes all of the bytes. Before an error it writes a beginning of them.
pub fn write_all<O: Write>(output: &mut O, bytes: &[u8]) -> Result<(), Fault>
    ensures { Serves result (IsWhole bytes.now) (O.contents output.old) (O.contents output.new) }
{
    let mut done = 0;
    'writes: for _ in 0..u64::MAX {
        if done >= bytes.len() {
            return Ok(());
        }
        match output.write(&bytes[done..]) {
            Ok(0) | Err(_) => return Err(Fault::Output),
            Ok(count) => done += count,
        }
    }
    Err(Fault::Output)
}

/// Writes all parts, one after another. Before an error it writes a beginning of them.
pub fn write_parts<O: Write>(output: &mut O, parts: &[&[u8]]) -> Result<(), Fault>
    ensures { Serves result (IsWhole (concat (map (λ part. part.now) parts.now)))
        (O.contents output.old) (O.contents output.new) }
{
    'parts: for part in parts {
        write_all(output, part)?;
    }
    Ok(())
}
