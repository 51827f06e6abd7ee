// Writes parts of a line. What was written before stays, also after an error.
ghost use Rattle.std.specs.Prelude.{IfErr, OnOk, OnErr, decimal, length};
ghost use Rattle.std.specs.Io.KnownBytes.{Appends};
ghost use Rattle.caseform.specs.Checksum.{ChecksumOf};
ghost use Rattle.caseform.specs.Shown.{refused, sized, spaced};
ghost use Rattle.streams.specs.Streams.{AppendsFront, Grows};

use crate::checksum;
use answers::Refusal;
use itoa::Buffer;
use search::Search;
use std::io;
use std::io::Write;

pub fn word<W: Write>(out: &mut W, text: &[u8]) -> io::Result<()>
    ensures ok { OnOk result (Appends (W.contents out.old) (W.contents out.new) text.now) }
    ensures err { OnErr result (AppendsFront (W.contents out.old) (W.contents out.new) text.now) }
    ensures grows { Grows (W.contents out.old) (W.contents out.new) }
{
    streams::put(out, text)
}

// In decimal. `write!` says nothing of what a call that fails has written.
pub fn number<W: Write>(out: &mut W, n: u64) -> io::Result<()>
    ensures ok { OnOk result (Appends (W.contents out.old) (W.contents out.new) (decimal n)) }
    ensures err { OnErr result (AppendsFront (W.contents out.old) (W.contents out.new) (decimal n)) }
    ensures grows { Grows (W.contents out.old) (W.contents out.new) }
{
    let mut digits = Buffer::new();
    word(out, digits.format(n).as_bytes())
}

// Numbers, each after a space.
pub fn spaced<W: Write>(out: &mut W, numbers: &[u64]) -> io::Result<()>
    ensures ok { OnOk result (Appends (W.contents out.old) (W.contents out.new) (spaced numbers.now)) }
    ensures err { OnErr result (AppendsFront (W.contents out.old) (W.contents out.new) (spaced numbers.now)) }
    ensures grows { Grows (W.contents out.old) (W.contents out.new) }
{
    for n in numbers {
        word(out, b" ")?;
        number(out, *n)?;
    }
    Ok(())
}

// A list of so many numbers with this checksum.
pub fn sized<W: Write>(out: &mut W, count: u64, checksum: u32) -> io::Result<()>
    ensures ok { OnOk result (Appends (W.contents out.old) (W.contents out.new) (sized count checksum)) }
    ensures err { OnErr result (AppendsFront (W.contents out.old) (W.contents out.new) (sized count checksum)) }
    ensures grows { Grows (W.contents out.old) (W.contents out.new) }
{
    number(out, count)?;
    word(out, b":")?;
    number(out, u64::from(checksum))
}

// A list of numbers, by its checksum.
pub fn list<W: Write, T: Copy + Into<u16>>(out: &mut W, numbers: &[T]) -> io::Result<()>
    ensures shown { (h : _) × ChecksumOf T.Into.converts 0 numbers.now h × OnOk result (Appends (W.contents out.old) (W.contents out.new) (sized (length numbers.now) h))
        × OnErr result (AppendsFront (W.contents out.old) (W.contents out.new) (sized (length numbers.now) h)) }
    ensures grows { Grows (W.contents out.old) (W.contents out.new) }
{
    sized(out, numbers.len() as u64, checksum::of(numbers))
}

fn refusal<W: Write>(out: &mut W, k: Refusal) -> io::Result<()>
    ensures ok { OnOk result (Appends (W.contents out.old) (W.contents out.new) (refused k)) }
    ensures err { OnErr result (AppendsFront (W.contents out.old) (W.contents out.new) (refused k)) }
    ensures grows { Grows (W.contents out.old) (W.contents out.new) }
{
    word(out, b"refused")?;
    spaced(out, &[u64::from(k.number())])
}

// What a call answers: what it gives, as the closure shows it, or its refusal.
pub fn answer<W: Write, T, F: FnOnce(&mut W, T) -> io::Result<()>>(
    out: &mut W,
    answer: Result<T, Refusal>,
    show: F,
) -> io::Result<()>
    requires callable { F.IsAlwaysCallable show }
    requires grows { (w : _) (x : T) (r : _) (after : _) → F.post show w x r after → Grows (W.contents w.now) (W.contents after.now) }
    ensures refused { IfErr answer (λ k. OnOk result (Appends (W.contents out.old) (W.contents out.new) (refused k))) }
    ensures grows { Grows (W.contents out.old) (W.contents out.new) }
{
    match answer {
        Ok(x) => show(out, x),
        Err(k) => refusal(out, k),
    }
}

pub fn search<W: Write>(out: &mut W, s: Search) -> io::Result<()>
    ensures { Grows (W.contents out.old) (W.contents out.new) }
{
    match s {
        Search::Checking(count, lost) => {
            word(out, b"Checking")?;
            spaced(out, &[u64::from(count), u64::from(lost)])
        }
        Search::Halving(low, high, lost) => {
            word(out, b"Halving")?;
            spaced(out, &[u64::from(low), u64::from(high), u64::from(lost)])
        }
        Search::AllUp => word(out, b"AllUp"),
        Search::Down(place) => {
            word(out, b"Down")?;
            spaced(out, &[u64::from(place)])
        }
    }
}
