// The fewest hops over arcs in use between every two switches, as a table by value. Inner: no call of document 01 is here.
#![tactic(auto)]

ghost use Rattle.std.specs.Prelude.{◌≡◌, List, ℕ, ◌≤◌, ◌<◌, replicate};
ghost use Rattle.lists.specs.Arrays.{flag, at};
ghost use Rattle.limits.specs.Limits.{max_switches};
ghost use Rattle.arcs.specs.Net.{Within};
ghost use Rattle.arcs.specs.Table.{distances_in};
ghost use Rattle.distance.specs.Ways.{Near, Left, Zeroed, FewInRow, FewHops, ByWay, Through};

use arcs::Net;
use plant::Plant;

// In a table that holds the number of switches everywhere, 1 from the tail of each flagged arc to its head.
fn adjacent(
    net: Net,
    tails: &[u8; Plant::LABELS],
    heads: &[u8; Plant::LABELS],
    used: &[bool; Plant::LABELS],
    t: &mut [[u8; Plant::PLACES]; Plant::PLACES],
)
    requires within { Within net tails.now heads.now used.now }
    requires flat { t.old ≡ replicate max_switches (replicate max_switches net.switches) }
    ensures { Near net.switches net.labels (at tails.now) (at heads.now) (flag used.now) net.labels t.new }
{
    for a in 0..net.labels as usize {
        if used[a] {
            t[tails[a] as usize][heads[a] as usize] = 1;
        }
    }
}

// A table with 0 from each switch to itself, and elsewhere what it held.
fn diagonal(t0: [[u8; Plant::PLACES]; Plant::PLACES]) -> [[u8; Plant::PLACES]; Plant::PLACES]
    ensures { Zeroed t0 max_switches result }
{
    let mut t = t0;
    for i in 0..Plant::PLACES {
        t[i][i] = 0;
    }
    t
}

// A flag for each switch that a flagged arc leaves.
fn left_by(
    net: Net,
    tails: &[u8; Plant::LABELS],
    used: &[bool; Plant::LABELS],
) -> [bool; Plant::PLACES]
    requires { (heads : List ℕ) × Within net tails.now heads used.now }
    ensures { Left (at tails.now) (flag used.now) net.labels result }
{
    let mut r = [false; Plant::PLACES];
    for a in 0..net.labels as usize {
        if used[a] {
            r[tails[a] as usize] = true;
        }
    }
    r
}

// A row, or the hops to another switch and on from there, whichever are fewer: `on` is that switch's row, d the hops to it.
fn by_way(row: [u8; Plant::PLACES], on: [u8; Plant::PLACES], d: u8) -> [u8; Plant::PLACES]
    requires d_le_max_switches { d ≤ max_switches }
    requires few_in_row { FewInRow on }
    ensures { ByWay row on d max_switches result }
{
    let mut r = row;
    for j in 0..Plant::PLACES {
        r[j] = r[j].min(d + on[j]);
    }
    r
}

// Every row by way of switch k; one from whose switch no walk leads to k stays as it is.
fn through(t: &mut [[u8; Plant::PLACES]; Plant::PLACES], s: u8, k: usize)
    requires s_le_max_switches { s ≤ max_switches }
    requires k_lt_max_switches { k < max_switches }
    requires few_hops { FewHops s t.old }
    ensures { Through k t.old s t.new }
{
    let on = t[k];
    for i in 0..s as usize {
        let d = t[i][k];
        let near = d < s;
        if near {
            t[i] = by_way(t[i], on, d);
        }
    }
}

// The fewest hops from each switch to each over the arcs that are flagged; the number of switches where there is no walk. The switches that an arc leaves are tried in turn as a
// way.
pub fn distances(
    net: Net,
    tails: &[u8; Plant::LABELS],
    heads: &[u8; Plant::LABELS],
    used: &[bool; Plant::LABELS],
) -> [[u8; Plant::PLACES]; Plant::PLACES]
    requires { Within net tails.now heads.now used.now }
    ensures { result ≡ distances_in net tails.now heads.now used.now }
{
    let mut t = [[net.switches; Plant::PLACES]; Plant::PLACES];
    adjacent(net, tails, heads, used, &mut t);
    t = diagonal(t);
    let left = left_by(net, tails, used);
    for k in 0..net.switches as usize {
        let way = left[k];
        if way {
            through(&mut t, net.switches, k);
        }
    }
    t
}
