// The trail of a network from its root, by its legs: it is laid into a lent buffer from some place on, or compared with a lent one. Inner: the functions ask of their callers what
// those have shown, and no call of document 01 is here.
#![tactic(auto)]

ghost use Rattle.std.specs.Prelude.{◌≡◌, ◌+◌, ◌≤◌, length};
ghost use Rattle.arcs.specs.Table.{cell};
ghost use Rattle.trail.specs.Ways.{WayOf, NextHop, route_by, TrailingOf, FittingOf, trail_by, Laid, TellsFrom};

use arcs::Network;

// The next hop on the way from u to `to`: the lowest label of an arc in use that leaves u and lessens the distance left. There is none at `to` itself.
fn hop(network: &Network, u: u8, to: u8) -> Option<u16>
    requires { WayOf network.now u to }
    ensures { (w : WayOf network.now u to) → NextHop w result }
{
    if u == to {
        return None;
    }
    let j = to as usize;
    let d = network.hops[u as usize][j];
    let mut a = network.chains.first[u as usize];
    while a < network.net.labels {
        let y = network.heads[a as usize] as usize;
        if network.hops[y][j] < d {
            return Some(a);
        }
        a = network.chains.after[a as usize];
    }
    None
}

// The way from u to `to` into the buffer from place `from` on; answers the place after it.
fn lay_way(network: &Network, u: u8, to: u8, buf: &mut [u16], from: usize) -> usize
    requires way { WayOf network.now u to }
    requires to_in_bounds { from + cell network.now.hops.now u to ≤ length buf.old }
    ensures { (w : WayOf network.now u to) → Laid (route_by w) buf.old from buf.new result }
{
    let mut at = from;
    let mut x = u;
    while let Some(a) = hop(network, x, to) {
        buf[at] = a;
        at += 1;
        x = network.heads[a as usize];
    }
    at
}

// The trail into a lent buffer that has room for it from place `from` on; answers the place after it. The other places keep their contents.
pub fn lay(network: &Network, legs: &[u16], buf: &mut [u16], from: usize) -> usize
    requires { FittingOf network.now legs.now from (length buf.old) }
    ensures { (w : TrailingOf network.now legs.now) → Laid (trail_by w) buf.old from buf.new result }
{
    let root = network.net.root;
    let mut j = from;
    let mut u = root;
    for a in legs {
        let x = *a as usize;
        j = lay_way(network, u, network.tails[x], buf, j);
        buf[j] = *a;
        j += 1;
        u = network.heads[x];
    }
    lay_way(network, u, root, buf, j)
}

// Do the labels of the lent slice from place `from` on begin with the way from u to `to`? Then the place after it.
fn compare_way(network: &Network, u: u8, to: u8, lent: &[u16], from: usize) -> Option<usize>
    requires { WayOf network.now u to }
    ensures { (w : WayOf network.now u to) → TellsFrom from lent.now (route_by w) result }
{
    let mut i = from;
    let mut x = u;
    while let Some(a) = hop(network, x, to) {
        let label = *lent.get(i)?;
        let other = label != a;
        if other {
            return None;
        }
        i += 1;
        x = network.heads[a as usize];
    }
    Some(i)
}

// Do the labels of the lent slice from place `from` on begin with the hops of the trail? Then the place after it. Places past them are not looked at.
pub fn compare(network: &Network, legs: &[u16], lent: &[u16], from: usize) -> Option<usize>
    requires { TrailingOf network.now legs.now }
    ensures { (w : TrailingOf network.now legs.now) → TellsFrom from lent.now (trail_by w) result }
{
    let root = network.net.root;
    let mut i = from;
    let mut u = root;
    for aim in legs {
        let x = *aim as usize;
        i = compare_way(network, u, network.tails[x], lent, i)?;
        let label = *lent.get(i)?;
        if label != *aim {
            return None;
        }
        i += 1;
        u = network.heads[x];
    }
    compare_way(network, u, root, lent, i)
}
