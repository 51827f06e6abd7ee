// The round trail of a plant from a root, read from a visit of it: the hop after each hop; laid into a lent buffer from some place on, or compared with a lent
// one. Inner: the calls are those of docs/CALLS.md.
#![tactic(auto)]

ghost use Rattle.std.specs.Prelude.{◌≡◌, ◌+◌, ◌*◌, ◌≤◌, ◌<◌, length};
ghost use Rattle.limits.specs.Limits.{max_links};
ghost use Rattle.walks.specs.Round.{round_from};
ghost use Rattle.arcs.specs.Shows.{Visits};
ghost use Rattle.trail.specs.Ways.{Laid, TellsFrom};
ghost use Rattle.round.specs.Round.{labels_of, Labels};
ghost use Rattle.round.specs.Inner.{or_back, HeadsIn, EntersOnce, WaysBack, hop_after, HopsAfter};

use arcs::{ArcEnds, Chains, Visited, opposite};
use plant::Plant;

// A round trail: the number of its hops, the label of the first, and for each label that of the hop after it.
#[derive(Clone, Copy, Debug, PartialEq, Eq)]
pub struct Round {
    pub hops: u16,
    pub begin: u16,
    pub next: [u16; Plant::LABELS],
}

// What tells the hop after each hop, of the labels below `labels`: the heads of the arcs, which of them lead, which links the visit entered, and the leading arcs of each switch.
#[derive(Clone, Copy)]
struct Turns {
    labels: u16,
    heads: [u8; Plant::LABELS],
    leading: [bool; Plant::LABELS],
    entered: [bool; Plant::MAX_LINKS],
    chains: Chains,
}

// For each switch that is entered the arc by which the round trail goes back from it: the opposite of the one by which it is entered. The number of labels stands for none, as in
// the chains.
fn ways_back(t: &Turns) -> [u16; Plant::PLACES]
    requires n_bound { t.now.labels ≤ 2 * max_links }
    requires enters_once { EntersOnce t.now.labels t.now.heads t.now.leading t.now.entered }
    ensures { WaysBack t.now.labels t.now.heads t.now.leading t.now.entered result }
{
    let mut up = [t.labels; Plant::PLACES];
    for a in 0..t.labels {
        let i = a as usize;
        if t.leading[i] && t.entered[i / 2] {
            up[t.heads[i] as usize] = opposite(a);
        }
    }
    up
}

// The next leading arc, if there is one, or the way back. What ends a chain is the number of labels.
fn or_back(next: u16, n: u16, up: u16) -> u16
    ensures { result ≡ or_back n next up }
{
    if next < n { next } else { up }
}

// The hop after hop a. After a leading arc into a switch the first leading arc that leaves it; after any other leading arc the one back; after an arc back the leading
// arc that follows at the same switch. Where no leading arc is left at a switch, the way back from it.
fn hop_after(t: &Turns, up: &[u16; Plant::PLACES], a: u16) -> u16
    requires heads_in { HeadsIn t.now.heads }
    requires a_bound { a < 2 * max_links }
    ensures { result ≡ hop_after t.now.labels t.now.heads t.now.leading t.now.entered t.now.chains.first t.now.chains.after up.now a }
{
    let i = a as usize;
    let x = t.heads[i] as usize;
    let back = opposite(a);
    if !t.leading[i] {
        return or_back(t.chains.after[back as usize], t.labels, up[x]);
    }
    if t.entered[i / 2] {
        return or_back(t.chains.first[x], t.labels, up[x]);
    }
    back
}

// The hop after each hop.
fn hops_after(t: &Turns, up: &[u16; Plant::PLACES]) -> [u16; Plant::LABELS]
    requires heads_in { HeadsIn t.now.heads }
    requires n_bound { t.now.labels ≤ 2 * max_links }
    ensures { HopsAfter t.now.labels t.now.heads t.now.leading t.now.entered t.now.chains.first t.now.chains.after up.now result }
{
    let mut next = [0u16; Plant::LABELS];
    for a in 0..t.labels {
        next[a as usize] = hop_after(t, up, a);
    }
    next
}

// The round trail of what the visit reached, from its root.
pub fn round_of(ends: &ArcEnds, v: Visited) -> Round
    requires visits { Visits ends.now.plant v.root v }
    ensures { labels_of result ≡ round_from ends.now.plant v.root }
{
    let labels = 2 * ends.plant.count;
    let leading = uses::leading_arcs(ends, v);
    let links = uses::count_set(&leading);
    let chains = arcs::chains_of(&ends.tails, &leading, labels);
    let heads = ends.heads;
    let entered = v.entered;
    let t = Turns {
        labels,
        heads,
        leading,
        entered,
        chains,
    };
    let up = ways_back(&t);
    let next = hops_after(&t, &up);
    let x = v.root as usize;
    let begin = or_back(t.chains.first[x], labels, up[x]);
    Round {
        hops: 2 * (links as u16),
        begin,
        next,
    }
}

// The round trail into a lent buffer that has room for it from place `from` on; answers the place after it. The other places keep their contents.
pub fn lay(x: Round, buf: &mut [u16], from: usize) -> usize
    requires labels { Labels x }
    requires hops_in_bounds { from + x.hops ≤ length buf.old }
    ensures { Laid (labels_of x) buf.old from buf.new result }
{
    let mut a = x.begin;
    let mut at = from;
    for _ in 0..x.hops {
        buf[at] = a;
        at += 1;
        a = x.next[a as usize];
    }
    at
}

// Do the labels of the lent slice from place `from` on begin with the hops of the round trail? Then the place after it. Places past them are not looked at.
pub fn compare(x: Round, lent: &[u16], from: usize) -> Option<usize>
    requires { Labels x }
    ensures { TellsFrom from lent.now (labels_of x) result }
{
    let mut a = x.begin;
    let mut at = from;
    for _ in 0..x.hops {
        let label = *lent.get(at)?;
        if label != a {
            return None;
        }
        at += 1;
        a = x.next[a as usize];
    }
    Some(at)
}
