// Moving bytes between lent buffers and a reader or a writer. An error is one that the reader or the writer gave, or tells of a writer that takes no more.
#![tactic(auto)]

ghost use Rattle.std.specs.Prelude.{◌≤◌, length, take, IfOk, OnOk};
ghost use Rattle.std.specs.Io.KnownBytes.{Appends, Consumes};
ghost use Rattle.transfer.specs.Moves.{Grows, Shrinks};

use std::io;
use std::io::{ErrorKind, Read, Write};

// All of the bytes are written. Where that fails, some of the first ones are.
pub fn write_whole<W: Write>(to: &mut W, bytes: &[u8]) -> io::Result<()>
    ensures whole { OnOk result (Appends (W.contents to.old) (W.contents to.new) bytes.now) }
    ensures grows { Grows (W.contents to.old) (W.contents to.new) }
{
    // The library's `write_all` does not say what a call that failed left, and goes on after an interruption.
    let mut done = 0;
    while done < bytes.len() {
        let taken = to.write(&bytes[done..])?;
        if taken == 0 {
            return Err(io::Error::from(ErrorKind::WriteZero));
        }
        done += taken;
    }
    Ok(())
}

// Reads until the buffer is full or nothing is left, and answers how many bytes came, which are at its start.
pub fn read_full<R: Read>(from: &mut R, buffer: &mut [u8]) -> io::Result<usize>
    ensures within { IfOk result (λ n. n ≤ length buffer.new) }
    ensures bytes { IfOk result (λ n. Consumes (R.remaining from.old) (R.remaining from.new) (take n buffer.new)) }
    ensures shrinks { Shrinks (R.remaining from.old) (R.remaining from.new) }
{
    // The library's `read_exact` does not say how many bytes came before the end. Each turn moves on by what its read gave.
    let mut done = 0;
    while done < buffer.len() {
        let come = from.read(&mut buffer[done..])?;
        if come == 0 {
            return Ok(done);
        }
        done += come;
    }
    Ok(done)
}
