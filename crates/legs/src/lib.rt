// The legs of the trails of a network from several roots: the arc that each crosses at its end, and the hops of each trail. Inner: the functions ask of their callers what those
// have shown, and no call of document 01 is here.
#![tactic(auto)]

ghost use Rattle.std.specs.Prelude.{◌≡◌, ◌<◌, length};
ghost use Rattle.limits.specs.Limits.{max_switches, max_rules};
ghost use Rattle.legs.specs.Firsts.{Firsts};
ghost use Rattle.legs.specs.Nearest.{Tabled, NearestBy};
ghost use Rattle.legs.specs.Several.{SomePartsOf, AddedOf, Several, LegsOfAll};

use arcs::{AllLegs, Chains, Legs, Net, Network};
use plant::Plant;

// The uncrossed arc in use that is nearest to u, by distance and then by label, if there is one. `low` has the lowest uncrossed label of each switch.
fn nearest(network: &Network, low: &[u16; Plant::PLACES], u: u8) -> Option<u16>
    requires { Tabled network.now.net.switches network.now.net.labels network.now.hops.now low.now u }
    ensures { NearestBy network.now.net.switches network.now.net.labels network.now.hops.now low.now u result }
{
    let n = network.net.labels;
    let m = network.net.switches as usize;
    let x = u as usize;
    if low[x] < n {
        return Some(low[x]);
    }
    let mut best = None;
    let mut least = m * Plant::LABELS + n as usize;
    for y in 0..m {
        let a = low[y];
        if a < n {
            let key = network.hops[x][y] as usize * Plant::LABELS + a as usize;
            if key < least {
                best = Some(a);
                least = key;
            }
        }
    }
    best
}

// The first arc of each switch that a walk from the root reaches; none of any other switch. The table tells which these are. The number of labels stands for none, as in the chains
// whose labels these are.
fn firsts_reached(network: &Network) -> [u16; Plant::PLACES]
    requires { network.now.net.root < max_switches }
    ensures { Firsts network.now.net.switches network.now.net.labels network.now.net.root network.now.chains.now.first network.now.hops.now max_switches result }
{
    let none = network.net.labels;
    let root = network.net.root as usize;
    let mut low = [none; Plant::PLACES];
    for y in 0..Plant::PLACES {
        let reached = network.hops[root][y] < network.net.switches;
        low[y] = if reached {
            network.chains.first[y]
        } else {
            none
        };
    }
    low
}

// The legs of the trail, into a lent array from place `from` on. What is uncrossed is kept as the lowest uncrossed label of each switch. From a root that no arc in use leaves there
// is no leg.
fn legs_from(network: &Network, aims: &mut [u16; Plant::MAX_RULES], from: u16) -> Legs
    requires some_parts { SomePartsOf network.now from }
    requires aims_len { length aims.old ≡ max_rules }
    ensures { (w : SomePartsOf network.now from) → AddedOf network.now w.used aims.old from result aims.new }
{
    let root = network.net.root as usize;
    let alone = network.net.labels <= network.chains.first[root];
    if alone {
        return Legs {
            from,
            to: from,
            hops: 0,
        };
    }
    let mut low = firsts_reached(network);
    let mut k = from as usize;
    let mut hops: u16 = 0;
    let mut u = network.net.root;
    while let Some(a) = nearest(network, &low, u) {
        let i = a as usize;
        let x = network.tails[i] as usize;
        aims[k] = a;
        k += 1;
        hops += network.hops[u as usize][x] as u16 + 1;
        low[x] = network.chains.after[i];
        u = network.heads[i];
    }
    Legs {
        from,
        to: k as u16,
        hops: hops + network.hops[u as usize][root] as u16,
    }
}

// The legs of the trails of a network from several roots, one trail after another. The table of distances is handed over.
pub fn legs_of(
    net: Net,
    tails: &[u8; Plant::LABELS],
    heads: &[u8; Plant::LABELS],
    chains: &Chains,
    t: [[u8; Plant::PLACES]; Plant::PLACES],
    roots: &[u8],
) -> AllLegs
    requires { Several net tails.now heads.now chains.now.first chains.now.after t roots.now }
    ensures { (w : Several net tails.now heads.now chains.now.first chains.now.after t roots.now) → LegsOfAll net tails.now heads.now roots.now w.used result.aims result.list }
{
    let mut aims = [0u16; Plant::MAX_RULES];
    let none = Legs {
        from: 0,
        to: 0,
        hops: 0,
    };
    let mut list = [none; Plant::PLACES];
    let mut from: u16 = 0;
    for (i, root) in roots.iter().enumerate() {
        let network = Network {
            net: arcs::net_from(net, *root),
            tails,
            heads,
            chains,
            hops: &t,
        };
        let legs = legs_from(&network, &mut aims, from);
        list[i] = legs;
        from = legs.to;
    }
    AllLegs { aims, list }
}
