// The arcs of a plant as arrays: their tails and heads, which labels are of links in service, and the flagged ones of each switch by rising label; and the values that
// the crates of the plan hand to one another. Inner: no call of document 01 is here.
#![tactic(auto)]

ghost use Rattle.std.specs.Prelude.{◌≡◌, ◌*◌, ◌≤◌};
ghost use Rattle.lists.specs.Arrays.{flag, at};
ghost use Rattle.limits.specs.Limits.{max_links};
ghost use Rattle.limits.specs.Sound.{Sound};
ghost use Rattle.walks.specs.Arcs.{opposite};
ghost use Rattle.walks.specs.Graph.{live_links};
ghost use Rattle.arcs.specs.Net.{rooted, Ends, AllArcs};
ghost use Rattle.arcs.specs.Chains.{Chained, TailsIn};
ghost use Rattle.arcs.specs.Shows.{TellsAll};

use plant::{Plant, head_of, in_service, tail_of};

// The sizes of a network: its switches are those below `switches`, its labels those below `labels`, and its trail goes from `root`.
#[derive(Clone, Copy)]
pub struct Net {
    pub switches: u8,
    pub labels: u16,
    pub root: u8,
}

// A sound plant, and the tails and the heads of its arcs, by their labels.
#[derive(Clone, Copy)]
pub struct ArcEnds {
    pub plant: Plant,
    pub tails: [u8; Plant::LABELS],
    pub heads: [u8; Plant::LABELS],
    pub ghost sound: { Sound plant },
    pub ghost ends: { Ends plant tails heads },
}

// The first arc of each switch, and after each arc the next of the same switch, by rising label. The number of labels stands for none, as in the chains' definition
// (specs/Chains.antt): a label from there on ends a chain.
#[derive(Clone, Copy)]
pub struct Chains {
    pub first: [u16; Plant::PLACES],
    pub after: [u16; Plant::LABELS],
}

// A network as the functions of the trail are lent it: its sizes, the tails and the heads of its arcs, the chains of its arcs in use, and the fewest hops over these from each switch
// to each. It need be that of no plant.
#[derive(Clone, Copy)]
pub struct Network<'a> {
    pub net: Net,
    pub tails: &'a [u8; Plant::LABELS],
    pub heads: &'a [u8; Plant::LABELS],
    pub chains: &'a Chains,
    pub hops: &'a [[u8; Plant::PLACES]; Plant::PLACES],
}

// How far a visit from `root` has come: `next` switches are visited, `seen` tells which, `rank` numbers them from 0 in the order of the visit, and `entered` tells
// by which links they were entered.
#[derive(Clone, Copy)]
pub struct Visited {
    pub root: u8,
    pub next: u8,
    pub seen: [bool; Plant::PLACES],
    pub rank: [u8; Plant::PLACES],
    pub entered: [bool; Plant::MAX_LINKS],
}

// What the visits from the roots of all components tell together, beside the ends of the arcs that they went over.
#[derive(Clone, Copy)]
pub struct AllVisited<'a> {
    pub ends: &'a ArcEnds,
    pub visited: Visited,
    pub ghost tells_all: { TellsAll ends.now.plant visited },
}

// The legs of a trail: the arcs that they cross at their ends stand in an array from place `from` to before place `to`, and the whole trail has `hops` hops. The last leg, back to
// the root, crosses none.
#[derive(Clone, Copy)]
pub struct Legs {
    pub from: u16,
    pub to: u16,
    pub hops: u16,
}

// The legs of several trails: the arcs that they cross, one trail after another, and for each trail its places among them.
#[derive(Clone, Copy)]
pub struct AllLegs {
    pub aims: [u16; Plant::MAX_RULES],
    pub list: [Legs; Plant::PLACES],
}

// The sizes of a network from another root.
pub fn net_from(net: Net, root: u8) -> Net
    ensures { result ≡ rooted net root }
{
    Net { root, ..net }
}

// The switch that each arc leaves, and the one that it reaches.
pub fn ends_of(p: Plant) -> ArcEnds
    requires { Sound p }
    ensures { result.plant ≡ p }
{
    let mut tails = [0u8; Plant::LABELS];
    let mut heads = [0u8; Plant::LABELS];
    for a in 0..2 * usize::from(p.count) {
        let l = p.links[a / 2];
        tails[a] = tail_of(l, a);
        heads[a] = head_of(l, a);
    }
    ArcEnds {
        plant: p,
        tails,
        heads,
    }
}

// E, the number of links in service. What is no place of a plant has no mark. By a loop, since a filter's count takes six times as long.
pub fn links_in_service(p: Plant) -> u16
    ensures { result ≡ live_links p }
{
    let mut e: u16 = 0;
    for l in 0..p.count {
        let i = l as usize;
        if Plant::MAX_LINKS <= i || in_service(p.links[i]) {
            e += 1;
        }
    }
    e
}

// A flag for each label: is its link in service?
pub fn all_arcs(p: &Plant) -> [bool; Plant::LABELS]
    requires { Sound p.now }
    ensures { AllArcs p.now result }
{
    let mut r = [false; Plant::LABELS];
    for a in 0..2 * usize::from(p.count) {
        r[a] = in_service(p.links[a / 2]);
    }
    r
}

// The label of the arc that crosses the same link the other way.
pub fn opposite(a: u16) -> u16
    ensures { result ≡ opposite a }
{
    if a % 2 == 0 { a + 1 } else { a - 1 }
}

// The flagged arcs of each switch, as chains. The labels are tried from the highest on.
pub fn chains_of(tails: &[u8; Plant::LABELS], flags: &[bool; Plant::LABELS], n: u16) -> Chains
    requires n_bound { n ≤ 2 * max_links }
    requires tails_in { TailsIn n tails.now flags.now }
    ensures { Chained n (at tails.now) (flag flags.now) result.first result.after }
{
    let mut first = [n; Plant::PLACES];
    let mut after = [n; Plant::LABELS];
    for a in (0..usize::from(n)).rev() {
        if flags[a] {
            let x = usize::from(tails[a]);
            after[a] = first[x];
            first[x] = a as u16;
        }
    }
    Chains { first, after }
}
