// Calls 1 to 6, 18, 19, 22 to 25, 28, 29 and 33 of the program `cases`: reading and writing a listing, its plan, and its buying page. Its main file has the table of cases.
#![tactic(auto)]

ghost use Rattle.streams.specs.Streams.{Grows};

use answers::Refusal;
use caseform::input::{Input, PLACES};
use caseform::{checksum, show};
use planning::{Component, Components, Numbers};
use plant::Plant;
use senders::BySwitch;
use sheet::Sheet;
use std::io;
use std::io::Write;
use table::Table;

// ---- what a call gives, as it is shown

fn show_plant<W: Write>(out: &mut W, p: Plant) -> io::Result<()>
    ensures { Grows (W.contents out.old) (W.contents out.new) }
{
    show::number(out, u64::from(p.switches))?;
    show::spaced(out, &[u64::from(p.count), u64::from(p.start)])?;
    show::word(out, b" ")?;
    show::sized(out, checksum::numbers_of_links(&p), checksum::of_links(&p))
}

fn show_numbers<W: Write>(out: &mut W, n: Numbers) -> io::Result<()>
    ensures { Grows (W.contents out.old) (W.contents out.new) }
{
    show::number(out, u64::from(n.switches))?;
    let others = [n.links, n.bridges, n.rules, n.hops];
    show::spaced(out, &others.map(u64::from))
}

fn show_table<W: Write>(out: &mut W, t: Table) -> io::Result<()>
    ensures { Grows (W.contents out.old) (W.contents out.new) }
{
    show::sized(out, 3 * u64::from(t.count), checksum::of_rules(&t))
}

// A list of numbers after a space, by its checksum.
fn show_counts<W: Write>(out: &mut W, counts: &[u16]) -> io::Result<()>
    ensures { Grows (W.contents out.old) (W.contents out.new) }
{
    show::word(out, b" ")?;
    show::list(out, counts)
}

fn show_by_switch<W: Write>(out: &mut W, b: BySwitch) -> io::Result<()>
    ensures { Grows (W.contents out.old) (W.contents out.new) }
{
    show::number(out, u64::from(b.total))?;
    show_counts(out, &b.counts)
}

fn show_sheet<W: Write>(out: &mut W, t: Sheet) -> io::Result<()>
    ensures { Grows (W.contents out.old) (W.contents out.new) }
{
    show::number(out, u64::from(t.switches))?;
    show::spaced(out, &[u64::from(t.total), u64::from(t.quantity)])?;
    show_counts(out, &t.rules)?;
    show_counts(out, &t.links)
}

// The checksum with the five numbers of a component.
fn with_component(h: u32, c: Component) -> u32 {
    let first = u16::from(c.first);
    checksum::with_all(h, &[first, c.begin, c.hops, c.round_begin, c.round_hops])
}

// The numbers of each component.
fn of_components(cs: &Components) -> u32 {
    let list = checksum::front(&cs.list, usize::from(cs.count));
    list.iter().fold(0, |h, c| with_component(h, *c))
}

fn show_components<W: Write>(out: &mut W, cs: Components) -> io::Result<()>
    ensures { Grows (W.contents out.old) (W.contents out.new) }
{
    show::sized(out, 5 * u64::from(cs.count), of_components(&cs))
}

// ---- the calls

// How many links a listing has, and a flag for each link place.
fn bridges_of(listing: &[u8]) -> Result<(u16, [bool; Plant::MAX_LINKS]), Refusal> {
    let p = planner::read(listing)?;
    let flags = planner::find_bridges(listing)?;
    Ok((p.count, flags))
}

// A flag for each link.
fn bridges<W: Write>(out: &mut W, listing: &[u8]) -> io::Result<()>
    ensures { Grows (W.contents out.old) (W.contents out.new) }
{
    show::answer(out, bridges_of(listing), |out, (count, flags)| {
        show::list(out, checksum::front(&flags, usize::from(count)))
    })
}

// What a call with this lent buffer answers, and then the buffer after it.
fn lent<W, N, T, C, F>(out: &mut W, buffer: &mut [N], call: C, show: F) -> io::Result<()>
where
    W: Write,
    N: Copy + From<u8> + Into<u16>,
    C: FnOnce(&mut [N]) -> Result<T, Refusal>,
    F: FnOnce(&mut W, T) -> io::Result<()>,
    requires call { C.IsAlwaysCallable call }
    requires callable { F.IsAlwaysCallable show }
    requires grows { (w : _) (x : T) (r : _) (after : _) → F.post show w x r after → Grows (W.contents w.now) (W.contents after.now) }
    ensures { Grows (W.contents out.old) (W.contents out.new) }
{
    checksum::fill(buffer);
    let answer = call(buffer);
    show::answer(out, answer, show)?;
    show::word(out, b" ")?;
    show::list(out, buffer)
}

fn show_length<W: Write>(out: &mut W, length: usize) -> io::Result<()>
    ensures { Grows (W.contents out.old) (W.contents out.new) }
{
    show::number(out, length as u64)
}

fn write<W: Write>(out: &mut W, p: Plant, n: u16) -> io::Result<()>
    ensures { Grows (W.contents out.old) (W.contents out.new) }
{
    lent(
        out,
        &mut [0u8; PLACES][..usize::from(n)],
        |buffer: &mut [u8]| planner::write(p, buffer),
        show_length,
    )
}

fn reread<W: Write>(out: &mut W, p: Plant, n: u16) -> io::Result<()>
    ensures { Grows (W.contents out.old) (W.contents out.new) }
{
    lent(
        out,
        &mut [0u8; PLACES][..usize::from(n)],
        |buffer: &mut [u8]| planner::reread(p, buffer),
        show_plant,
    )
}

fn rewrite<W: Write>(out: &mut W, listing: &[u8], n: u16) -> io::Result<()>
    ensures { Grows (W.contents out.old) (W.contents out.new) }
{
    lent(
        out,
        &mut [0u8; PLACES][..usize::from(n)],
        |buffer: &mut [u8]| planner::rewrite(listing, buffer),
        show_length,
    )
}

fn page<W: Write>(out: &mut W, listing: &[u8], spare: u8, n: u16) -> io::Result<()>
    ensures { Grows (W.contents out.old) (W.contents out.new) }
{
    lent(
        out,
        &mut [0u8; PLACES][..usize::from(n)],
        |buffer: &mut [u8]| planner::write_buying_page(listing, spare, buffer),
        show_length,
    )
}

fn show_hops<W: Write>(out: &mut W, hops: u16) -> io::Result<()>
    ensures { Grows (W.contents out.old) (W.contents out.new) }
{
    show::number(out, u64::from(hops))
}

fn trail<W: Write>(out: &mut W, listing: &[u8], n: u16) -> io::Result<()>
    ensures { Grows (W.contents out.old) (W.contents out.new) }
{
    lent(
        out,
        &mut [0u16; PLACES][..usize::from(n)],
        |buffer: &mut [u16]| planner::lay_trail(listing, buffer),
        show_hops,
    )
}

fn round_trail<W: Write>(out: &mut W, listing: &[u8], n: u16) -> io::Result<()>
    ensures { Grows (W.contents out.old) (W.contents out.new) }
{
    lent(
        out,
        &mut [0u16; PLACES][..usize::from(n)],
        |buffer: &mut [u16]| planner::lay_round_trail(listing, buffer),
        show_hops,
    )
}

// Writes the answer of one of these calls to the arguments that are next in the input. What was written before stays, also after an error. A byte that is no call ends the
// input.
pub fn answer<W: Write>(out: &mut W, call: u8, input: &mut Input) -> io::Result<()>
    ensures { Grows (W.contents out.old) (W.contents out.new) }
{
    match call {
        1 => show::answer(out, planner::read(input.string()), show_plant),
        2 => write(out, input.plant(), input.number()),
        3 => show::answer(out, planner::summarize(input.string()), show_numbers),
        4 => bridges(out, input.string()),
        5 => show::answer(out, planner::forwarding_table(input.string()), show_table),
        6 => trail(out, input.string(), input.number()),
        18 => rewrite(out, input.string(), input.number()),
        19 => reread(out, input.plant(), input.number()),
        22 => show::answer(
            out,
            planner::rules_by_switch(input.string()),
            show_by_switch,
        ),
        23 => page(out, input.string(), input.byte(), input.number()),
        24 => show::answer(out, planner::read_buying_page(input.string()), show_sheet),
        25 => round_trail(out, input.string(), input.number()),
        28 => write(out, input.marked_plant(), input.number()),
        29 => reread(out, input.marked_plant(), input.number()),
        33 => show::answer(
            out,
            planner::find_components(input.string()),
            show_components,
        ),
        _ => {
            input.end();
            Ok(())
        }
    }
}
