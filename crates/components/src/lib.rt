// The components of a plant, found by a visit from the root of each: the roots in their order, the component of each switch, and the bridges and the arcs in use of all, read from
// the visits together. Inner: the calls are those of docs/CALLS.md.
#![tactic(auto)]

ghost use Rattle.std.specs.Prelude.{◌≡◌, ◌||◌, List, [], ◌∷◌, ◌++◌, ℕ, ◌<◌, get_or, Some, None};
ghost use Rattle.lists.specs.Arrays.{flag, at};
ghost use Rattle.lists.specs.Tests.{choose};
ghost use Rattle.limits.specs.Limits.{max_switches, max_links};
ghost use Rattle.walks.specs.Components.{roots};
ghost use Rattle.arcs.specs.Flags.{Flags};
ghost use Rattle.components.specs.Found.{Finds};
ghost use Rattle.components.specs.Inner.{Apart, Covers};

use arcs::{AllVisited, ArcEnds, Visited};
use plant::Plant;
use std::array;
use visit::AllChains;

// The components: `count` of them with their roots, for each switch the number of its component, the bridges and the arcs in use. A place past the switches has the number that
// stands for none.
#[derive(Clone, Copy)]
pub struct Found {
    pub count: u8,
    pub roots: [u8; Plant::PLACES],
    pub home: [u8; Plant::PLACES],
    pub bridges: [bool; Plant::MAX_LINKS],
    pub used: [bool; Plant::LABELS],
}

// What the visits so far have found: `count` components with their roots, for each switch the number of its component and its own number in the visit of that, and by which links
// switches were entered. Where a switch is in none of them, its component is none.
#[derive(Clone, Copy)]
pub struct Forest {
    pub count: u8,
    pub roots: [u8; Plant::PLACES],
    pub home: [Option<u8>; Plant::PLACES],
    pub rank: [u8; Plant::PLACES],
    pub entered: [bool; Plant::MAX_LINKS],
}

// The number that stands for no component.
const NONE: u8 = Plant::PLACES as u8;

// Nothing is found yet.
fn nothing() -> Forest
    ensures { (p : _) → Covers p [] result }
{
    Forest {
        count: 0,
        roots: [0; Plant::PLACES],
        home: [None; Plant::PLACES],
        rank: [0; Plant::PLACES],
        entered: [false; Plant::MAX_LINKS],
    }
}

// The new value of a switch that is seen, and the old one of another. It is given both, so that what goes over all places has no branch.
fn pick<T: Copy>(seen: bool, new: T, old: T) -> T
    ensures { result ≡ choose seen new old }
{
    if seen { new } else { old }
}

// The switches that are seen are of component k, and the others stay where they were.
fn settle(home: &mut [Option<u8>; Plant::PLACES], seen: &[bool; Plant::PLACES], k: u8)
    ensures { (x : ℕ) → x < max_switches → get_or home.new x None ≡ choose (flag seen.now x) (Some k) (get_or home.old x None) }
{
    for x in 0..Plant::PLACES {
        home[x] = pick(seen[x], Some(k), home[x]);
    }
}

// The switches that are seen get their new numbers, and the others keep the old.
fn renumber(rank: &mut [u8; Plant::PLACES], seen: &[bool; Plant::PLACES], new: &[u8; Plant::PLACES])
    ensures { (x : ℕ) → x < max_switches → at rank.new x ≡ choose (flag seen.now x) (at new.now x) (at rank.old x) }
{
    for x in 0..Plant::PLACES {
        rank[x] = pick(seen[x], new[x], rank[x]);
    }
}

// The flags that are set in `more` are set too.
fn join(into: &mut [bool; Plant::MAX_LINKS], more: &[bool; Plant::MAX_LINKS])
    ensures { (l : ℕ) → flag into.new l ≡ flag into.old l || flag more.now l }
{
    for l in 0..Plant::MAX_LINKS {
        into[l] |= more[l];
    }
}

// With the component of one root more, which none of those found before reaches.
fn with_component(all: &AllChains, f: &mut Forest, root: u8)
    requires root_lt_switches { root < all.now.plant.now.switches }
    requires count_lt_max_switches { f.old.count < max_switches }
    ensures { (rs : List ℕ) → Covers all.now.plant.now rs f.old → Apart all.now.plant.now rs root → Covers all.now.plant.now (rs ++ (root ∷ [])) f.new }
{
    let v = visit::visit_by(all, root);
    f.roots[f.count as usize] = root;
    settle(&mut f.home, &v.seen, f.count);
    renumber(&mut f.rank, &v.seen, &v.rank);
    join(&mut f.entered, &v.entered);
    f.count += 1;
}

// The visits of all components: of the start's, and then of that of each switch which is in none before it.
fn visit_all(all: &AllChains) -> Forest
    ensures { Covers all.now.plant.now (roots all.now.plant.now) result }
{
    let mut f = nothing();
    with_component(all, &mut f, all.plant.start);
    for x in 0..all.plant.switches {
        if f.home[x as usize].is_none() {
            with_component(all, &mut f, x);
        }
    }
    f
}

// The components of a plant. Its bridges and its arcs in use are read from the visits of all of them, in which every switch is seen.
pub fn find(ends: &ArcEnds) -> Found
    ensures { Finds ends.now.plant result }
{
    let chains = visit::all_chains(&ends.plant, &ends.tails);
    let by = AllChains {
        plant: &ends.plant,
        heads: &ends.heads,
        chains,
    };
    let f = visit_all(&by);
    let rank = f.rank;
    let entered = f.entered;
    let visited = Visited {
        root: ends.plant.start,
        next: ends.plant.switches,
        seen: [true; Plant::PLACES],
        rank,
        entered,
    };
    let all = AllVisited { ends, visited };
    let bridges = bridges::bridges_of(&all);
    let used = uses::arcs_in_use(&all, &bridges);
    let roots = f.roots;
    let home = array::from_fn(|x| f.home[x].unwrap_or(NONE));
    Found {
        count: f.count,
        roots,
        home,
        bridges,
        used,
    }
}
