// Calls 7 to 12, 21, 26 and 27 of the program `cases`: packets and probes. Each is given a listing, a switch and labels, and then arguments of its own. Its main file
// has the table of cases.
#![tactic(auto)]

ghost use Rattle.streams.specs.Streams.{Grows};

use caseform::input::{Input, PLACES};
use caseform::{checksum, input, show};
use choosing::Choice;
use order::{Order, Span};
use packet::End;
use probing::Named;
use search::Outcome;
use std::io;
use std::io::Write;

// A word, the hops made and the switch last reached.
fn show_end<W: Write>(out: &mut W, word: &[u8], e: End) -> io::Result<()>
    ensures { Grows (W.contents out.old) (W.contents out.new) }
{
    show::word(out, word)?;
    show::spaced(out, &[e.hops as u64, u64::from(e.last)])
}

// What a run tells.
fn show_run<W: Write>(out: &mut W, e: End) -> io::Result<()>
    ensures { Grows (W.contents out.old) (W.contents out.new) }
{
    let word: &[u8] = if e.ended { b"ended" } else { b"lost" };
    show_end(out, word, e)
}

// The labels so many times over, and then those of another list.
fn long_run<W: Write>(
    out: &mut W,
    listing: &[u8],
    switch: u8,
    labels: &[u16],
    input: &mut Input,
) -> io::Result<()>
    ensures { Grows (W.contents out.old) (W.contents out.new) }
{
    let times = input.number();
    let mut places = [0u16; PLACES];
    let more = input.labels(&mut places);
    let mut long_places = [0u16; 2 * PLACES];
    let packet = input::packet(labels, times, more, &mut long_places);
    show::answer(
        out,
        probing::run(listing, switch, packet, input.string()),
        show_run,
    )
}

// What a probe tells, by its outcome.
fn show_probe<W: Write>(out: &mut W, e: End) -> io::Result<()>
    ensures { Grows (W.contents out.old) (W.contents out.new) }
{
    match probing::outcome_of(e) {
        Outcome::Returned => show_end(out, b"returned", e),
        Outcome::Lost => show_end(out, b"lost", e),
    }
}

// Which of the two lent trails was chosen, and its hops.
fn show_choice<W: Write>(
    out: &mut W,
    trail: &[u16],
    round: &[u16],
    choice: Choice,
) -> io::Result<()>
    ensures { Grows (W.contents out.old) (W.contents out.new) }
{
    let word: &[u8] = match choice {
        Choice::Trail(_, _) => b"trail ",
        Choice::Round(_, _) => b"round ",
    };
    show::word(out, word)?;
    show::list(out, probing::chosen(trail, round, choice))
}

// The labels are the trail; the round trail is a second list.
fn shorter_trail<W: Write>(
    out: &mut W,
    listing: &[u8],
    switch: u8,
    trail: &[u16],
    input: &mut Input,
) -> io::Result<()>
    ensures { Grows (W.contents out.old) (W.contents out.new) }
{
    let mut places = [0u16; PLACES];
    let round = input.labels(&mut places);
    let choice = probing::shorter_trail(listing, switch, trail, round);
    show::answer(
        out,
        choice,
        |out, choice| show_choice(out, trail, round, choice),
    )
}

fn show_order<W: Write>(out: &mut W, o: Order) -> io::Result<()>
    ensures { Grows (W.contents out.old) (W.contents out.new) }
{
    show::list(out, checksum::front(&o.links, usize::from(o.count)))
}

// The two parts of the lent trail, one after the other.
fn show_parts<W: Write>(out: &mut W, trail: &[u16], span: Span) -> io::Result<()>
    ensures { Grows (W.contents out.old) (W.contents out.new) }
{
    let stretch = probing::stretch(trail, span);
    let front = probing::front(trail, span);
    let h = checksum::with_all(checksum::of(stretch), front);
    show::sized(out, stretch.len() as u64 + front.len() as u64, h)
}

fn show_named<W: Write>(out: &mut W, r: Named) -> io::Result<()>
    ensures { Grows (W.contents out.old) (W.contents out.new) }
{
    match r {
        Named::Link(l) => {
            show::word(out, b"link")?;
            show::spaced(out, &[u64::from(l)])
        }
        Named::AllUp => show::word(out, b"none"),
        Named::Open => show::word(out, b"open"),
    }
}

// Writes the answer of one of these calls to the arguments that are next in the input. What was written before stays, also after an error.
pub fn answer<W: Write>(out: &mut W, call: u8, input: &mut Input) -> io::Result<()>
    ensures { Grows (W.contents out.old) (W.contents out.new) }
{
    let listing = input.string();
    let switch = input.byte();
    let mut places = [0u16; PLACES];
    let labels = input.labels(&mut places);
    match call {
        7 => show::answer(
            out,
            probing::run(listing, switch, labels, input.string()),
            show_run,
        ),
        8 => show::answer(
            out,
            probing::full_check(listing, switch, labels, input.string()),
            show_probe,
        ),
        9 => show::answer(
            out,
            probing::order_of_links(listing, switch, labels),
            show_order,
        ),
        10 => show::answer(
            out,
            probing::outward_labels(listing, switch, labels, input.search()),
            |out, span| show_parts(out, labels, span),
        ),
        11 => show::answer(
            out,
            probing::run_probe(listing, switch, labels, input.string(), input.search()),
            show_probe,
        ),
        21 => long_run(out, listing, switch, labels, input),
        26 => show::answer(
            out,
            probing::round_run(listing, switch, labels, input.string()),
            show_probe,
        ),
        27 => shorter_trail(out, listing, switch, labels, input),
        _ => show::answer(
            out,
            probing::link_named(listing, switch, labels, input.search()),
            show_named,
        ),
    }
}
