// Reads from a reader into a lent buffer, and writes all of some bytes to a writer. A call that a signal interrupts counts as one that failed.
#![tactic(auto)]

ghost use Rattle.std.specs.Prelude.{◌<◌, length, take, IfOk, OnOk, OnErr};
ghost use Rattle.std.specs.Io.KnownBytes.{Appends, Consumes, IsAtEnd};
ghost use Rattle.streams.specs.Streams.{AppendsFront, ConsumesFront, Grows, IsPrefixLen, Shrinks};

use std::io;
use std::io::{Read, Write};

// Reads to the front of the buffer until it is full or the reader ends; how many bytes were read. The library's `read_exact` does not tell how many came before the end.
#[tactic(auto, unfolding(crate::specs::Streams::Shrinks))]
pub fn fill<R: Read>(reader: &mut R, buf: &mut [u8]) -> io::Result<usize>
    ensures front { IfOk result (λ n. IsPrefixLen n buf.new) }
    ensures bytes { IfOk result (λ n. Consumes (R.remaining reader.old) (R.remaining reader.new) (take n buf.new)) }
    ensures all { IfOk result (λ n. n < length buf.new → IsAtEnd (R.remaining reader.new)) }
    ensures err { OnErr result (ConsumesFront (R.remaining reader.old) (R.remaining reader.new) buf.new) }
    ensures taken { Shrinks (R.remaining reader.old) (R.remaining reader.new) }
{
    let mut done = 0;
    while done < buf.len() {
        let n = reader.read(&mut buf[done..])?;
        if n == 0 {
            return Ok(done);
        }
        done += n;
    }
    Ok(done)
}

// Writes all of the bytes. After an error a front of them is written: the library's `write_all` does not say so, and tries an interrupted call again.
#[tactic(auto, unfolding(crate::specs::Streams::Grows))]
pub fn put<W: Write>(out: &mut W, bytes: &[u8]) -> io::Result<()>
    ensures ok { OnOk result (Appends (W.contents out.old) (W.contents out.new) bytes.now) }
    ensures err { OnErr result (AppendsFront (W.contents out.old) (W.contents out.new) bytes.now) }
    ensures grows { Grows (W.contents out.old) (W.contents out.new) }
{
    let mut done = 0;
    while done < bytes.len() {
        let n = out.write(&bytes[done..])?;
        if n == 0 {
            return Err(io::Error::from(io::ErrorKind::WriteZero));
        }
        done += n;
    }
    Ok(())
}
