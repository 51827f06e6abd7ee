// The ring of an injection switch in a lent trail: its place, the order of links by first crossing, and the outward labels of a probe as parts of the trail. Inner: the calls are those of docs/CALLS.md.
#![tactic(auto)]

ghost use Rattle.std.specs.Prelude.{◌≡◌, ◌==◌, ◌+◌, ◌/◌, ◌≤◌, ◌++◌, length, take, drop, position};
ghost use Rattle.limits.specs.Limits.{max_links};
ghost use Rattle.limits.specs.Sound.{Sound};
ghost use Rattle.rings.specs.Ring.{read_from};
ghost use Rattle.rings.specs.Order.{order};
ghost use Rattle.rings.specs.Probe.{up_to};
ghost use Rattle.rings.specs.Injection.{place_of, order_of};
ghost use Rattle.order.specs.Labels.{OverArcs};
ghost use Rattle.order.specs.Order.{listed};
ghost use Rattle.order.specs.Span.{ring_span, span_of, shifted_by, stretch_of, front_of};

use plant::{Plant, tail_of};

// The trail that an injection at a switch goes over, in a lent trail over arcs of a sound plant: its ring is the trail from the place of the switch on, and then its front.
#[derive(Clone, Copy)]
pub struct Ring<'a> {
    pub plant: &'a Plant,
    pub switch: u8,
    pub trail: &'a [u16],
    pub ghost sound: { Sound plant.now },
    pub ghost over_arcs: { OverArcs plant.now trail.now },
}

// Links by first crossing, `count` of them; the places past them are zero. The array has a place for each link of any plant, since nothing is kept on a heap.
#[derive(Clone, Copy, Debug, PartialEq, Eq)]
pub struct Order {
    pub count: u16,
    pub links: [u16; Plant::MAX_LINKS],
}

// Where the outward labels of a probe stand in a lent trail: `len` labels from place `from` on, and then `front` labels from place `begin` on, where the trail begins.
#[derive(Clone, Copy, Debug, PartialEq, Eq)]
pub struct Span {
    pub from: usize,
    pub len: usize,
    pub begin: usize,
    pub front: usize,
}

// The place of the switch: the first hop of the trail that leaves it. As many as there are hops if none does, so 0 if the trail is empty.
pub fn place_of(ring: &Ring) -> usize
    ensures place { result ≡ place_of ring.now.plant.now ring.now.trail.now ring.now.switch }
    ensures in_trail { result ≤ length ring.now.trail.now }
{
    for (i, a) in ring.trail.iter().enumerate() {
        let a = usize::from(*a);
        if tail_of(ring.plant.links[a / 2], a) == ring.switch {
            return i;
        }
    }
    ring.trail.len()
}

// The links of the trail read from place k, each at its first crossing.
fn order_from(ring: &Ring, k: usize) -> Order
    requires { k ≤ length ring.now.trail.now }
    ensures { result ≡ listed (order (read_from k ring.now.trail.now)) }
{
    let mut links = [0; Plant::MAX_LINKS];
    let mut seen = [false; Plant::MAX_LINKS];
    let mut count: u16 = 0;
    let (front, rest) = ring.trail.split_at(k);
    for a in rest.iter().chain(front.iter()) {
        let l = *a / 2;
        if !seen[usize::from(l)] {
            seen[usize::from(l)] = true;
            links[usize::from(count)] = l;
            count += 1;
        }
    }
    Order { count, links }
}

// The order of links by first crossing from the place of the switch.
pub fn order_of(ring: &Ring) -> Order
    ensures { result ≡ listed (order_of ring.now.plant.now ring.now.trail.now ring.now.switch) }
{
    let k = place_of(ring);
    order_from(ring, k)
}

// The number of the first label that crosses link l, of the labels v and then w.
fn crossing(v: &[u16], w: &[u16], l: u16) -> Option<usize>
    ensures { result ≡ position (λ a. a / 2 == l) (v.now ++ w.now) }
{
    v.iter().chain(w.iter()).position(|a| *a / 2 == l)
}

// How many labels of the trail read from place k there are up to the first crossing of link l, with it; all if it is not crossed.
fn out_to(trail: &[u16], k: usize, l: u16) -> usize
    requires { k ≤ length trail.now }
    ensures { result ≡ length (up_to l (read_from k trail.now)) }
{
    let (front, rest) = trail.split_at(k);
    match crossing(rest, front, l) {
        Some(i) => i + 1,
        None => trail.len(),
    }
}

// Where the labels of the full check stand: the whole ring.
pub fn ring_span(ring: &Ring) -> Span
    ensures { result ≡ ring_span ring.now.plant.now ring.now.trail.now ring.now.switch }
{
    let k = place_of(ring);
    Span {
        from: k,
        len: ring.trail.len() - k,
        begin: 0,
        front: k,
    }
}

// Where the outward labels of probe m stand: those of the trail from the place of the switch up to the first crossing of the m-th link of the order.
pub fn span_of(ring: &Ring, m: u16) -> Span
    requires le_m { 1 ≤ m }
    requires m_le_max_links { m ≤ max_links }
    ensures { result ≡ span_of ring.now.plant.now ring.now.trail.now ring.now.switch m }
{
    let k = place_of(ring);
    let o = order_from(ring, k);
    let j = (m - 1) as usize;
    let l = o.links[j];
    let n = out_to(ring.trail, k, l);
    let len = n.min(ring.trail.len() - k);
    Span {
        from: k,
        len,
        begin: 0,
        front: n - len,
    }
}

// Where the same labels stand in a lent list that has the trail from place `by` on.
pub fn shifted(span: Span, by: usize) -> Span
    requires by_bound { span.from + by ≤ usize.MAX }
    requires by_bound_2 { span.begin + by ≤ usize.MAX }
    ensures { result ≡ shifted_by span by }
{
    Span {
        from: span.from + by,
        begin: span.begin + by,
        ..span
    }
}

// As many of n labels from place k on as there are.
pub fn part<'a>(trail: &'a [u16], k: usize, n: usize) -> &'a [u16]
    ensures { result.now ≡ take n (drop k trail.now) }
{
    let rest = &trail[k.min(trail.len())..];
    &rest[..n.min(rest.len())]
}

// The stretch of a lent trail that the bounds name, as much of it as is there.
pub fn stretch<'a>(trail: &'a [u16], span: Span) -> &'a [u16]
    ensures { result.now ≡ stretch_of trail.now span }
{
    part(trail, span.from, span.len)
}

// The front of a lent trail that the bounds name, as much of it as is there.
pub fn front<'a>(trail: &'a [u16], span: Span) -> &'a [u16]
    ensures { result.now ≡ front_of trail.now span }
{
    part(trail, span.begin, span.front)
}
