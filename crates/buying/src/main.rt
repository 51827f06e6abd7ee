// The program `buying` (document 02, order 3): reads a listing from standard input and prints its buying page, or its refusal. Its one argument is the spare in percent.
#![tactic(auto)]

ghost use Rattle.std.specs.Prelude.{◌≡◌, true, min, IfSome, OnOk, OnErr};
ghost use Rattle.std.specs.Io.KnownBytes.{Appends};
ghost use Rattle.answers.specs.Answers.{number_of};
ghost use Rattle.text.specs.Decimal.{read_decimal};
ghost use Rattle.text.specs.Lines.{refusal_of};
ghost use Rattle.columns.specs.Fields.{is_short};
ghost use Rattle.streams.specs.Streams.{AppendsFront, IsPrefixLen, Shrinks};
ghost use Rattle.buying.specs.Output.{printed};

use answers::Refusal;
use columns::LINE;
use plant::Plant;
use std::env::{Env, FillError};
use std::io;
use std::io::{Read, Write};

// The length of the longest page: a line for each switch that a plant can have, and the last.
const PAGE: usize = LINE * (Plant::PLACES + 1);

// The most bytes of an input that are read.
const INPUT: usize = 4096;

// An argument that says a spare: a number of one to three digits.
#[derive(Drop)]
struct Spare<'a> {
    argument: &'a [u8],
    ghost is_short: { is_short argument.now ≡ true },
}

// Writes the output for an argument and a listing. These two are handed over for the contract alone, which says what the bytes are. After an error a front of them is written.
fn write_output<W: Write>(
    out: &mut W,
    bytes: &[u8],
    spare: &Spare,
    listing: &[u8],
) -> io::Result<()>
    requires { bytes.now ≡ printed spare.now.argument.now listing.now }
    ensures ok { OnOk result (Appends (W.contents out.old) (W.contents out.new) (printed spare.now.argument.now listing.now)) }
    ensures err { OnErr result (AppendsFront (W.contents out.old) (W.contents out.new) (printed spare.now.argument.now listing.now)) }
{
    streams::put(out, bytes)
}

// The line of a refusal.
fn print_refusal<W: Write>(out: &mut W, k: Refusal, spare: &Spare, listing: &[u8]) -> io::Result<()>
    requires { refusal_of (number_of k) ≡ printed spare.now.argument.now listing.now }
    ensures ok { OnOk result (Appends (W.contents out.old) (W.contents out.new) (printed spare.now.argument.now listing.now)) }
    ensures err { OnErr result (AppendsFront (W.contents out.old) (W.contents out.new) (printed spare.now.argument.now listing.now)) }
{
    let mut line = [0u8; text::REFUSAL];
    let n = text::put_refusal(&mut line, k.number());
    write_output(out, &line[..n], spare, listing)
}

// The spare that an argument says, as a byte: one that a byte can't hold is too large in any case.
fn percent(spare: &Spare) -> u8
    ensures { result ≡ min (read_decimal spare.now.argument.now) 255 }
{
    columns::short_of(spare.argument).min(255) as u8
}

// The buying page of a listing, or its refusal.
fn print_page<W: Write>(out: &mut W, spare: &Spare, listing: &[u8]) -> io::Result<()>
    ensures ok { OnOk result (Appends (W.contents out.old) (W.contents out.new) (printed spare.now.argument.now listing.now)) }
    ensures err { OnErr result (AppendsFront (W.contents out.old) (W.contents out.new) (printed spare.now.argument.now listing.now)) }
{
    let mut page = [0u8; PAGE];
    match planner::write_buying_page(listing, percent(spare), &mut page) {
        Ok(n) => write_output(out, &page[..n], spare, listing),
        Err(k) => print_refusal(out, k, spare, listing),
    }
}

// The output for the listing that a reader gives. The buffer has more places than the longest sound listing has bytes, so that of a longer input what it holds decides:
// `printed-front` of proofs/Output.antt. After an error, of the reader or of the writer, a front of the output is written.
fn print_file<R: Read, W: Write>(spare: &Spare, file: &mut R, out: &mut W) -> io::Result<()>
    ensures ok { OnOk result (IfSome (R.remaining file.old) (λ s. Appends (W.contents out.old) (W.contents out.new) (printed spare.now.argument.now s))) }
    ensures err { OnErr result (IfSome (R.remaining file.old) (λ s. AppendsFront (W.contents out.old) (W.contents out.new) (printed spare.now.argument.now s))) }
    ensures taken { Shrinks (R.remaining file.old) (R.remaining file.new) }
{
    let mut input = [0u8; INPUT];
    let n = streams::fill(file, &mut input)?;
    print_page(out, spare, &input[..n])
}

// A line on how to call the program.
fn tell_usage<W: Write>(out: &mut W) -> io::Result<()> {
    streams::put(
        out,
        b"usage: buying SPARE < LISTING, with SPARE in percent: one to three digits, no leading zero\n",
    )
}

// The one argument of a program, to the front of the buffer, and its length; none if there is none, if there are more, or if the buffer is too short for it.
fn only_argument(env: &impl Env, buffer: &mut [u8]) -> Option<usize>
    ensures { IfSome result (λ n. IsPrefixLen n buffer.new) }
{
    let mut second = [0u8; 1];
    match env.arg(2, &mut second) {
        Err(FillError::NotPresent) => env.arg(1, buffer).ok(),
        _ => None,
    }
}

fn main(rt: HostRuntime) -> io::Result<()> {
    let mut argument = [0u8; text::DIGITS_SHORT];
    if let Some(n) = only_argument(&rt, &mut argument) {
        let argument = &argument[..n];
        if columns::is_short(argument) {
            return print_file(&Spare { argument }, &mut rt.stdin(), &mut rt.stdout());
        }
    }
    tell_usage(&mut rt.stderr())
}
