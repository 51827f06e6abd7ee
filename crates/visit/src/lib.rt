// The depth-first visit of a plant from a root. Inner: the calls are those of docs/CALLS.md.
#![tactic(auto)]

ghost use Rattle.std.specs.Prelude.{◌≡◌, ◌*◌, ◌≤◌, ◌<◌};
ghost use Rattle.lists.specs.Arrays.{at};
ghost use Rattle.limits.specs.Limits.{max_switches, max_links};
ghost use Rattle.limits.specs.Sound.{Sound};
ghost use Rattle.walks.specs.Arcs.{tail, head};
ghost use Rattle.arcs.specs.Shows.{Visits};
ghost use Rattle.visit.specs.Inner.{SomeArcs, AllChained, enter_of, begin_of, At, Went};

use arcs::{ArcEnds, Chains, Visited};
use plant::Plant;

// A sound plant, the heads of its arcs and the chains of all of them, which each visit of it goes by.
#[derive(Clone, Copy)]
pub struct AllChains<'a> {
    pub plant: &'a Plant,
    pub heads: &'a [u8; Plant::LABELS],
    pub chains: Chains,
    pub ghost sound: { Sound plant.now },
    pub ghost heads_are: { at heads.now ≡ head plant.now },
    pub ghost all_chained: { AllChained plant.now chains.first chains.after },
}

// Link l is entered, and the switch `to` is visited.
fn enter(v: Visited, to: u8, l: usize) -> Visited
    requires to_lt_max_switches { to < max_switches }
    requires l_lt_max_links { l < max_links }
    requires next_lt_max_switches { v.next < max_switches }
    ensures { result ≡ enter_of v to l }
{
    let mut r = v;
    let i = to as usize;
    r.next += 1;
    r.seen[i] = true;
    r.rank[i] = v.next;
    r.entered[l] = true;
    r
}

// The visit goes on from the switch `from`, which is visited. It follows the chain of the arcs that leave it, by rising label, and calls itself for each switch that it enters. The
// number of unvisited switches falls with each call, so it calls itself no deeper than there are switches.
fn visit_from(
    heads: &[u8; Plant::LABELS],
    chains: &Chains,
    n: u16,
    v0: Visited,
    from: u8,
) -> Visited
    requires n_bound { n ≤ 2 * max_links }
    requires some_arcs { SomeArcs n heads.now chains.now.first chains.now.after }
    requires at { At v0 from }
    ensures { (w : SomeArcs n heads.now chains.now.first chains.now.after) → Went n w.tl (at heads.now) w.ok v0 from result }
{
    let mut v = v0;
    let mut a = chains.first[from as usize];
    while a < n {
        let i = a as usize;
        let to = heads[i];
        if !v.seen[to as usize] {
            v = visit_from(heads, chains, n, enter(v, to, i / 2), to);
        }
        a = chains.after[i];
    }
    v
}

// The root is visited, and nothing else yet.
#[tactic(auto, unfolding(crate::specs::Inner::begin_of))]
fn begin(root: u8) -> Visited
    requires { root < max_switches }
    ensures { result ≡ begin_of root }
{
    let mut v = Visited {
        root,
        next: 1,
        seen: [false; Plant::PLACES],
        rank: [0; Plant::PLACES],
        entered: [false; Plant::MAX_LINKS],
    };
    v.seen[root as usize] = true;
    v
}

// The chains of all arcs of a plant.
pub fn all_chains(p: &Plant, tails: &[u8; Plant::LABELS]) -> Chains
    requires sound { Sound p.now }
    requires tails_value { at tails.now ≡ tail p.now }
    ensures { AllChained p.now result.first result.after }
{
    arcs::chains_of(tails, &arcs::all_arcs(p), 2 * p.count)
}

// The depth-first visit from a root by the chains of all arcs.
pub fn visit_by(all: &AllChains, root: u8) -> Visited
    requires { root < all.now.plant.now.switches }
    ensures { Visits all.now.plant.now root result }
{
    let n = 2 * all.plant.count;
    visit_from(all.heads, &all.chains, n, begin(root), root)
}

// The depth-first visit from a root.
pub fn visit(ends: &ArcEnds, root: u8) -> Visited
    requires { root < ends.now.plant.switches }
    ensures { Visits ends.now.plant root result }
{
    let chains = all_chains(&ends.plant, &ends.tails);
    let all = AllChains {
        plant: &ends.plant,
        heads: &ends.heads,
        chains,
    };
    visit_by(&all, root)
}
