// The arcs in use of a plant, read from the visits of its components, the leading arcs of a round trail, read from one visit, and how many flags are set. Inner: the calls are
// those of docs/CALLS.md.
#![tactic(auto)]

ghost use Rattle.std.specs.Prelude.{◌≡◌, ◌*◌};
ghost use Rattle.limits.specs.Limits.{max_links};
ghost use Rattle.lists.specs.Arrays.{flag};
ghost use Rattle.walks.specs.Graph.{bridge};
ghost use Rattle.walks.specs.Components.{used};
ghost use Rattle.walks.specs.Inner.{leading_from};
ghost use Rattle.arcs.specs.Shows.{Visits};
ghost use Rattle.arcs.specs.Flags.{Flags, count_set};
ghost use Rattle.uses.specs.Inner.{is_taken, taken_by};

use arcs::{AllVisited, ArcEnds, Visited};
use plant::{Plant, in_service};

// Is an arc taken whose tail and head the visit numbered so? Of a link with two both arcs are; of another entered link, the arc from earlier to later visited; of every
// other link, the arc from later to earlier.
#[tactic(auto, unfolding(crate::specs::Inner::is_taken))]
fn taken(two: bool, entered: bool, tail: u8, head: u8) -> bool
    ensures { result ≡ is_taken two entered tail head }
{
    two || if entered { tail < head } else { head < tail }
}

// A flag for each label: is its arc taken, where these links have two?
fn arcs_taken(ends: &ArcEnds, v: Visited, two: &[bool; Plant::MAX_LINKS]) -> [bool; Plant::LABELS]
    ensures { Flags (2 * max_links) (taken_by ends.now.plant v (flag two.now)) result }
{
    let mut u = [false; Plant::LABELS];
    for l in 0..ends.plant.count as usize {
        let x = ends.tails[2 * l] as usize;
        let y = ends.heads[2 * l] as usize;
        if in_service(ends.plant.links[l]) && v.seen[x] {
            let i = v.rank[x];
            let j = v.rank[y];
            u[2 * l] = taken(two[l], v.entered[l], i, j);
            u[2 * l + 1] = taken(two[l], v.entered[l], j, i);
        }
    }
    u
}

// A flag for each label: is its arc in use? Both arcs of a bridge are: the flags of the bridges are given.
pub fn arcs_in_use(all: &AllVisited, b: &[bool; Plant::MAX_LINKS]) -> [bool; Plant::LABELS]
    requires { Flags max_links (bridge all.now.ends.now.plant) b.now }
    ensures { Flags (2 * max_links) (used all.now.ends.now.plant) result }
{
    arcs_taken(all.ends, all.visited, b)
}

// A flag for each label: is it the one by which the round trail crosses its link first? No link has two of them.
pub fn leading_arcs(ends: &ArcEnds, v: Visited) -> [bool; Plant::LABELS]
    requires visits { Visits ends.now.plant v.root v }
    ensures { Flags (2 * max_links) (leading_from ends.now.plant v.root) result }
{
    arcs_taken(ends, v, &[false; Plant::MAX_LINKS])
}

// How many flags are set? By a loop, since a filter's count takes six times as long.
pub fn count_set(flags: &[bool]) -> usize
    ensures { result ≡ count_set flags.now }
{
    let mut n: usize = 0;
    for f in flags {
        if *f {
            n += 1;
        }
    }
    n
}
