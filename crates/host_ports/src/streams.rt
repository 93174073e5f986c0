//! Bytes from a reader and to a writer, which may give and take fewer than they are asked for.

ghost use Rattle.std.specs.Prelude.{◌≡◌, ◌≤◌, ℕ, length, take, IfOk, IfSome, OnOk, OnErr};
ghost use Rattle.std.specs.Io.KnownBytes.{Appends};

use r4_ports::FetchFault;
use std::alloc::Global;
use std::io;
use std::io::{Error, ErrorKind, Read, Write};

// The most bytes that are read at once.
const BLOCK: usize = 4096;

/// The first `cap` bytes that a reader has left, or all where it has fewer. The reading ends after `cap` bytes, at a
/// read of no bytes, or at an error, whose answer is Failed.
pub fn read_up_to<I: Read>(input: &mut I, alloc: Global, cap: usize) -> Result<Vec<u8>, FetchFault>
    ensures bytes { IfOk result (λ v. IfSome (I.remaining input.old) (λ left. v.items ≡ take cap left)) }
    ensures at_most { IfOk result (λ v. length v.items ≤ cap) }
{
    let mut bytes = Vec::new(alloc);
    let mut buffer = [0u8; BLOCK];
    while bytes.len() < cap {
        let want = (cap - bytes.len()).min(BLOCK);
        match input.read(&mut buffer[..want]) {
            Ok(0) => break,
            Ok(count) => bytes.extend_from_slice(&buffer[..count])?,
            Err(_) => return Err(FetchFault::Failed),
        }
    }
    Ok(bytes)
}

/// Writes all bytes. It fails at an error, and where a write takes no byte; the writer then has a first part of them.
pub fn write_whole<W: Write>(out: &mut W, bytes: &[u8]) -> io::Result<()>
    ensures ok { OnOk result (Appends (W.contents out.old) (W.contents out.new) bytes.now) }
    ensures err { OnErr result ((count : ℕ) × Appends (W.contents out.old) (W.contents out.new) (take count bytes.now)) }
{
    let mut at = 0;
    while at < bytes.len() {
        match out.write(&bytes[at..]) {
            Ok(0) => return Err(Error::from(ErrorKind::WriteZero)),
            Ok(count) => at += count,
            Err(error) => return Err(error),
        }
    }
    Ok(())
}

#[cfg(test)]
mod tests;
