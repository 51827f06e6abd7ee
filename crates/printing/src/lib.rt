// The plan of a listing as text: a line of numbers, the forwarding table and a trail line for each component; or its refusal. The whole text is made as bytes in a lent buffer,
// and one function writes it. Inner: what the programs `rules` and `samples` share.
#![tactic(auto)]

ghost use Rattle.std.specs.Prelude.{◌≡◌, map, ◌+◌, ◌≤◌, length, IfSome, OnOk, OnErr};
ghost use Rattle.std.specs.Io.KnownBytes.{Appends};
ghost use Rattle.answers.specs.Answers.{number_of};
ghost use Rattle.limits.specs.Limits.{max_hops};
ghost use Rattle.plan.specs.Plan.{trail_of};
ghost use Rattle.text.specs.Lines.{summary_line, rule_line, rule_lines, trail_line, trail_lines, refusal_of};
ghost use Rattle.text.specs.Sizes.{summary_most};
ghost use Rattle.text.specs.Laid.{Room, Laid};
ghost use Rattle.streams.specs.Streams.{AppendsFront, Shrinks};
ghost use Rattle.printing.specs.Output.{triple, plant_output, printed};
ghost use Rattle.printing.specs.Room.{page_room};
ghost use Rattle.printing.specs.Stretches.{stretch_of, Stretches};

use answers::Refusal;
use planning::{Component, Numbers, Plan};
use plant::Plant;
use std::io;
use std::io::{Read, Write};
use table::Rule;

// The trails of a plant have at most so many hops together, and the most bytes of their page: `page_room max_hops` of specs/Room.antt.
const LONG: usize = Plant::MAX_HOPS;

const LONG_PAGE: usize = text::SUMMARY
    + Plant::MAX_RULES * text::RULE
    + Plant::PLACES * text::TRAIL
    + LONG * text::LABEL;

// Trails of at most so many hops together are short, and the most bytes of their page: those of most plants are, and a short buffer does for them.
const SHORT: usize = Plant::LABELS;

const SHORT_PAGE: usize = text::SUMMARY
    + Plant::MAX_RULES * text::RULE
    + Plant::PLACES * text::TRAIL
    + SHORT * text::LABEL;

// The most bytes of an input that are read.
const INPUT: usize = 4096;

// The line of numbers, at the front of the buffer.
fn put_numbers(n: Numbers, buf: &mut [u8]) -> usize
    requires { summary_most ≤ length buf.old }
    ensures laid { Laid buf.old 0 (summary_line n.switches n.links n.bridges n.rules n.hops) buf.new result }
    ensures upper_bound { result ≤ summary_most }
{
    text::put_summary(
        buf,
        0,
        u16::from(n.switches),
        n.links,
        n.bridges,
        n.rules,
        n.hops,
    )
}

// The line of a rule.
fn put_rule(r: Rule, buf: &mut [u8], at: usize) -> usize
    requires { Room buf.old at (rule_line r.from r.label r.to) }
    ensures { Laid buf.old at (rule_line r.from r.label r.to) buf.new result }
{
    text::put_rule(buf, at, u16::from(r.from), r.label, u16::from(r.to))
}

// A line for each of these rules.
fn put_rules(rules: &[Rule], buf: &mut [u8], at: usize) -> usize
    requires { Room buf.old at (rule_lines (map triple rules.now)) }
    ensures { Laid buf.old at (rule_lines (map triple rules.now)) buf.new result }
{
    let mut next = at;
    for r in rules {
        next = put_rule(*r, buf, next);
    }
    next
}

// The trail line of a component, by its stretch of the labels.
fn put_stretch(c: Component, labels: &[u16], buf: &mut [u8], at: usize) -> usize
    requires hops_in_bounds { c.begin + c.hops ≤ length labels.now }
    requires room { Room buf.old at (trail_line (stretch_of labels.now c)) }
    ensures { Laid buf.old at (trail_line (stretch_of labels.now c)) buf.new result }
{
    let from = usize::from(c.begin);
    let to = from + usize::from(c.hops);
    text::put_trail(buf, at, &labels[from..to])
}

// A trail line for each of these components, by its stretch of the labels.
fn put_trails(list: &[Component], labels: &[u16], buf: &mut [u8], at: usize) -> usize
    requires stretches { Stretches list.now labels.now }
    requires room { Room buf.old at (trail_lines (map (stretch_of labels.now) list.now)) }
    ensures { Laid buf.old at (trail_lines (map (stretch_of labels.now) list.now)) buf.new result }
{
    let mut next = at;
    for c in list {
        next = put_stretch(*c, labels, buf, next);
    }
    next
}

// The page of a plan at the front of a buffer that has room for as many hops as its trails have. The trails are laid into the lent labels first.
fn put_plan(x: &Plan, labels: &mut [u16], buf: &mut [u8]) -> usize
    requires labels_room { length (trail_of x.now.layout.chart.ends.plant) ≤ length labels.old }
    requires page_room { page_room (length (trail_of x.now.layout.chart.ends.plant)) ≤ length buf.old }
    ensures { Laid buf.old 0 (plant_output x.now.layout.chart.ends.plant) buf.new result }
{
    planning::lay(x, labels);
    let t = planning::table_of(&x.layout.chart);
    let rules = &t.rules[..usize::from(t.count)];
    let cs = &x.layout.components.list[..usize::from(x.layout.components.count)];
    let next = put_numbers(planning::numbers_of(&x.layout), buf);
    let end = put_rules(rules, buf, next);
    put_trails(cs, labels, buf, end)
}

// Writes the output for a listing. The listing is handed over for the contract alone, which says what the bytes are. After an error a front of them is written.
fn write_output<W: Write>(out: &mut W, bytes: &[u8], listing: &[u8]) -> io::Result<()>
    requires { bytes.now ≡ printed listing.now }
    ensures ok { OnOk result (Appends (W.contents out.old) (W.contents out.new) (printed listing.now)) }
    ensures err { OnErr result (AppendsFront (W.contents out.old) (W.contents out.new) (printed listing.now)) }
{
    streams::put(out, bytes)
}

// The page of a plan, by labels for so many hops and a buffer of so many bytes.
fn print_plan<W: Write, const HOPS: usize, const BYTES: usize>(
    out: &mut W,
    x: &Plan,
    listing: &[u8],
) -> io::Result<()>
    requires hops_bound { (length (trail_of x.now.layout.chart.ends.plant) ≤ HOPS) × (HOPS ≤ max_hops) }
    requires bytes_are { BYTES ≡ page_room HOPS }
    requires output { plant_output x.now.layout.chart.ends.plant ≡ printed listing.now }
    ensures ok { OnOk result (Appends (W.contents out.old) (W.contents out.new) (printed listing.now)) }
    ensures err { OnErr result (AppendsFront (W.contents out.old) (W.contents out.new) (printed listing.now)) }
{
    let mut labels = [0u16; HOPS];
    let mut bytes = [0u8; BYTES];
    let n = put_plan(x, &mut labels, &mut bytes);
    write_output(out, &bytes[..n], listing)
}

// The page of a plan, by way of a short buffer where its trails are short. It is not inlined, so that the plan is not copied for its two ways.
#[inline(never)]
fn print_page<W: Write>(out: &mut W, x: &Plan, listing: &[u8]) -> io::Result<()>
    requires { plant_output x.now.layout.chart.ends.plant ≡ printed listing.now }
    ensures ok { OnOk result (Appends (W.contents out.old) (W.contents out.new) (printed listing.now)) }
    ensures err { OnErr result (AppendsFront (W.contents out.old) (W.contents out.new) (printed listing.now)) }
{
    if usize::from(x.layout.hops) <= SHORT {
        print_plan::<W, SHORT, SHORT_PAGE>(out, x, listing)
    } else {
        print_plan::<W, LONG, LONG_PAGE>(out, x, listing)
    }
}

// The line of a refusal.
fn print_refusal<W: Write>(out: &mut W, k: Refusal, listing: &[u8]) -> io::Result<()>
    requires { refusal_of (number_of k) ≡ printed listing.now }
    ensures ok { OnOk result (Appends (W.contents out.old) (W.contents out.new) (printed listing.now)) }
    ensures err { OnErr result (AppendsFront (W.contents out.old) (W.contents out.new) (printed listing.now)) }
{
    let mut line = [0u8; text::REFUSAL];
    let n = text::put_refusal(&mut line, k.number());
    write_output(out, &line[..n], listing)
}

// Writes the output for a listing. After an error a front of it is written.
pub fn print_listing<W: Write>(out: &mut W, listing: &[u8]) -> io::Result<()>
    ensures ok { OnOk result (Appends (W.contents out.old) (W.contents out.new) (printed listing.now)) }
    ensures err { OnErr result (AppendsFront (W.contents out.old) (W.contents out.new) (printed listing.now)) }
{
    match planning::plan_of(listing) {
        Ok(x) => print_page(out, &x, listing),
        Err(k) => print_refusal(out, k, listing),
    }
}

// Writes the output for the listing that a reader gives. After an error, of the reader or of the writer, a front of it is written.
//
// The buffer has more places than the longest sound listing has bytes, so that of a longer input what it holds decides: `printed-front` of proofs/Front.antt.
pub fn print_file<R: Read, W: Write>(file: &mut R, out: &mut W) -> io::Result<()>
    ensures ok { OnOk result (IfSome (R.remaining file.old) (λ s. Appends (W.contents out.old) (W.contents out.new) (printed s))) }
    ensures err { OnErr result (IfSome (R.remaining file.old) (λ s. AppendsFront (W.contents out.old) (W.contents out.new) (printed s))) }
    ensures taken { Shrinks (R.remaining file.old) (R.remaining file.new) }
{
    let mut input = [0u8; INPUT];
    let n = streams::fill(file, &mut input)?;
    print_listing(out, &input[..n])
}
