// The bridges of a plant, read from the visits of its components. Inner: the calls are those of docs/CALLS.md.
#![tactic(auto)]

ghost use Rattle.std.specs.Prelude.{◌≡◌, true, false, ◌+◌, ◌<◌};
ghost use Rattle.lists.specs.Arrays.{at, flag};
ghost use Rattle.plant.specs.Links.{live};
ghost use Rattle.limits.specs.Limits.{max_links};
ghost use Rattle.walks.specs.Graph.{bridge};
ghost use Rattle.arcs.specs.Flags.{Flags};
ghost use Rattle.bridges.specs.Inner.{EntryLinks, Covered, across_of};

use arcs::{AllVisited, ArcEnds};
use plant::{Plant, in_service};
use std::array;

// The link by which each switch was entered. Of the two ends of an entered link, the one with the higher number was entered by it.
fn entry_links(all: &AllVisited) -> [usize; Plant::PLACES]
    ensures { EntryLinks all.now.ends.now.plant max_links result }
{
    let mut up = [0usize; Plant::PLACES];
    for l in 0..all.ends.plant.count as usize {
        if all.visited.entered[l] {
            let x = all.ends.tails[2 * l] as usize;
            let y = all.ends.heads[2 * l] as usize;
            if all.visited.rank[x] < all.visited.rank[y] {
                up[y] = l;
            } else {
                up[x] = l;
            }
        }
    }
    up
}

// The end of link l away from the switch `from`, which is one of its two.
fn across(ends: &ArcEnds, l: usize, from: u8) -> u8
    requires { l < max_links }
    ensures { result ≡ across_of (at ends.now.tails) (at ends.now.heads) l from }
{
    let x = ends.tails[2 * l];
    if x == from { ends.heads[2 * l] } else { x }
}

// The flags of the links on a cycle, with those of the cycle that link k closes: it is in service and was not entered. From the two ends of k, the one with the higher
// number goes back over the link by which it was entered, until the two meet. The sum of their numbers falls.
fn climb(all: &AllVisited, up: &[usize; Plant::PLACES], c: &mut [bool; Plant::MAX_LINKS], k: usize)
    requires entry_links { EntryLinks all.now.ends.now.plant max_links up.now }
    requires k_lt_max_links { k < max_links }
    requires covered { Covered all.now.ends.now.plant k c.old }
    requires in_service { live all.now.ends.now.plant k ≡ true }
    requires not_entered { flag all.now.visited.entered k ≡ false }
    ensures { Covered all.now.ends.now.plant (k + 1) c.new }
{
    let mut x = all.ends.tails[2 * k];
    let mut y = all.ends.heads[2 * k];
    while x != y {
        let i = x as usize;
        let j = y as usize;
        if all.visited.rank[i] < all.visited.rank[j] {
            let l = up[j];
            c[l] = true;
            y = across(all.ends, l, y);
        } else {
            let l = up[i];
            c[l] = true;
            x = across(all.ends, l, x);
        }
    }
}

// A flag for each link: is it entered, and on a cycle that another link closes?
fn covered_links(all: &AllVisited, up: &[usize; Plant::PLACES]) -> [bool; Plant::MAX_LINKS]
    requires entry_links { EntryLinks all.now.ends.now.plant max_links up.now }
    ensures { Covered all.now.ends.now.plant max_links result }
{
    let mut c = [false; Plant::MAX_LINKS];
    for k in 0..all.ends.plant.count as usize {
        if in_service(all.ends.plant.links[k]) && !all.visited.entered[k] {
            climb(all, up, &mut c, k);
        }
    }
    c
}

// A flag for each link: is it a bridge? Such a link was entered, and is on no cycle.
pub fn bridges_of(all: &AllVisited) -> [bool; Plant::MAX_LINKS]
    ensures { Flags max_links (bridge all.now.ends.now.plant) result }
{
    let up = entry_links(all);
    let c = covered_links(all, &up);
    array::from_fn(|l| all.visited.entered[l] & !c[l])
}
