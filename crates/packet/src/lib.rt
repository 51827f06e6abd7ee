// Packet runs: under rules that are flags of labels, by a state byte for each link, or for each label; the full check, the round run, every probe, and the outcome of a
// run. Inner: the calls are those of docs/CALLS.md.
#![tactic(auto)]

ghost use Rattle.std.specs.Prelude.{◌≡◌, true, not, ◌&&◌, [], ◌∷◌, ◌+◌, ◌*◌, ◌%◌, ◌≤◌, eqb, length};
ghost use Rattle.lists.specs.Arrays.{flag};
ghost use Rattle.limits.specs.Limits.{max_links};
ghost use Rattle.limits.specs.Sound.{Sound};
ghost use Rattle.plant.specs.Links.{side};
ghost use Rattle.walks.specs.Arcs.{tail, head};
ghost use Rattle.rings.specs.Packet.{run, rules_for};
ghost use Rattle.rings.specs.Rules.{up_by_link};
ghost use Rattle.rings.specs.Probe.{back};
ghost use Rattle.rings.specs.Injection.{ring_of, probe_run};
ghost use Rattle.rings.specs.Round.{round_run};
ghost use Rattle.order.specs.Labels.{OverArcs};
ghost use Rattle.packet.specs.Runs.{end_of, injected_at, after_label, goes_by, goes_on};
ghost use Rattle.packet.specs.Outcome.{outcome_of};
ghost use Rattle.packet.specs.Asked.{CanRunBy, CanRun, out_and_back};

use arcs::opposite;
use order::{Ring, front, place_of, span_of, stretch};
use plant::{Link, Plant, head_of, tail_of};
use search::Outcome;

// How a run comes out: has the packet ended (else it is lost), the hops made, and the switch last reached.
#[derive(Clone, Copy, Debug, PartialEq, Eq)]
pub struct End {
    pub ended: bool,
    pub hops: usize,
    pub last: u8,
}

// A packet that is injected at switch s.
pub fn injected(s: u8) -> End
    ensures { end_of result ≡ injected_at s }
{
    End {
        ended: true,
        hops: 0,
        last: s,
    }
}

// The outcome of a run, as it is given to a search: returned if the packet has ended, else lost.
pub fn outcome_of(e: End) -> Outcome
    ensures { result ≡ outcome_of (end_of e) }
{
    if e.ended {
        Outcome::Returned
    } else {
        Outcome::Lost
    }
}

// How many labels share a state byte: the two of a link, or each has its own.
const OF_LINK: usize = 2;

const OF_LABEL: usize = 1;

// What packets run under: a sound plant, rules as flags of its labels, and a state byte for each N labels. The rules are for arcs of the plant, and its labels have
// their bytes. The check, the round run and a probe take a ring with rules and states, and no course beside it: each would have the plant.
#[derive(Clone, Copy)]
struct Course<'a, const N: usize> {
    plant: &'a Plant,
    rules: &'a [bool; Plant::LABELS],
    states: &'a [u8],
    ghost some: { 1 ≤ N },
    ghost sound: { Sound plant.now },
    ghost can_run: { CanRunBy N plant.now rules.now states.now },
}

// Does a packet at switch s cross link l by label a? There is a rule for the label at the switch that its arc leaves, and the label is up.
fn crosses(rule: bool, state: u8, l: Link, a: usize, s: u8) -> bool
    ensures { result ≡ (rule && eqb (side (a % 2) l.first l.second) s) && not (eqb state 0) }
{
    rule && tail_of(l, a) == s && state != 0
}

// After the next label: a packet that crosses is at the switch that the label leads to, after one hop more; one that does not is lost where it is, after the hops
// that it made.
fn after_label(e: End, crosses: bool, to: u8) -> End
    requires { e.hops + 1 ≤ usize.MAX }
    ensures { end_of result ≡ after_label (end_of e) crosses to }
{
    if crosses {
        End {
            ended: true,
            hops: e.hops + 1,
            last: to,
        }
    } else {
        End { ended: false, ..e }
    }
}

impl<'a, const N: usize> Course<'a, N> {
    // A packet goes on over the next label. A label past those of the plant has no rule.
    fn hop(&self, e: End, a: u16) -> End
        requires going { e.ended ≡ true }
        requires hops_bound { e.hops + 1 ≤ usize.MAX }
        ensures { end_of result ≡ goes_by N self.now.plant.now self.now.rules.now self.now.states.now (end_of e) (a ∷ []) }
    {
        let p = self.plant;
        let a = usize::from(a);
        if 2 * usize::from(p.count) <= a {
            return after_label(e, false, e.last);
        }
        let l = p.links[a / 2];
        let c = crosses(self.rules[a], self.states[a / N], l, a, e.last);
        after_label(e, c, head_of(l, a))
    }

    // A packet that came so far goes on over these labels, unless it is lost.
    fn run_out(&self, e: End, labels: &[u16]) -> End
        requires { e.hops + length labels.now ≤ usize.MAX }
        ensures { end_of result ≡ goes_by N self.now.plant.now self.now.rules.now self.now.states.now (end_of e) labels.now }
    {
        if !e.ended {
            return e;
        }
        let mut at = e;
        for a in labels {
            at = self.hop(at, *a);
            if !at.ended {
                return at;
            }
        }
        at
    }

    // A packet that came so far goes back over these labels, unless it is lost: over the opposite arcs, from the last.
    fn run_back(&self, e: End, labels: &[u16]) -> End
        requires { e.hops + length labels.now ≤ usize.MAX }
        ensures { end_of result ≡ goes_by N self.now.plant.now self.now.rules.now self.now.states.now (end_of e) (back labels.now) }
    {
        if !e.ended {
            return e;
        }
        let mut at = e;
        for a in labels.iter().rev() {
            at = self.hop(at, opposite(*a));
            if !at.ended {
                return at;
            }
        }
        at
    }

    // A packet runs over the ring of switch s, which is the trail from the place of s on and then its front.
    fn run_ring(&self, s: u8, trail: &[u16]) -> End
        requires { OverArcs self.now.plant.now trail.now }
        ensures { end_of result ≡ goes_by N self.now.plant.now self.now.rules.now self.now.states.now (injected_at s) (ring_of self.now.plant.now trail.now s) }
    {
        let k = place_of(&Ring {
            plant: self.plant,
            switch: s,
            trail,
        });
        let (front, rest) = trail.split_at(k);
        let e = self.run_out(injected(s), rest);
        self.run_out(e, front)
    }
}

// A packet that came so far goes on with these labels, unless it is lost.
pub fn run_on(
    plant: &Plant,
    rules: &[bool; Plant::LABELS],
    states: &[u8],
    e: End,
    labels: &[u16],
) -> End
    requires sound { Sound plant.now }
    requires can_run { CanRun plant.now rules.now states.now }
    requires labels_bound { e.hops + length labels.now ≤ usize.MAX }
    ensures { end_of result ≡ goes_on plant.now rules.now states.now (end_of e) labels.now }
{
    let course = Course::<OF_LINK> {
        plant,
        rules,
        states,
    };
    course.run_out(e, labels)
}

// From switch s out over x and then y, and back over the opposite arcs.
fn there_and_back(course: &Course<OF_LINK>, s: u8, x: &[u16], y: &[u16]) -> End
    requires { 2 * (length x.now + length y.now) ≤ usize.MAX }
    ensures { end_of result ≡ goes_on course.now.plant.now course.now.rules.now course.now.states.now (injected_at s) (out_and_back x.now y.now) }
{
    let e = run_on(course.plant, course.rules, course.states, injected(s), x);
    let f = run_on(course.plant, course.rules, course.states, e, y);
    let g = course.run_back(f, y);
    course.run_back(g, x)
}

// The full check: the packet runs under the forwarding table over the ring of the switch, by a state byte for each link.
pub fn full_check(ring: &Ring, table: &[bool; Plant::LABELS], states: &[u8]) -> End
    requires { CanRun ring.now.plant.now table.now states.now }
    ensures { end_of result ≡ run (rules_for (flag table.now) (tail ring.now.plant.now)) (up_by_link states.now) (head ring.now.plant.now) ring.now.switch 0 (ring_of ring.now.plant.now ring.now.trail.now ring.now.switch) }
{
    let course = Course::<OF_LINK> {
        plant: ring.plant,
        rules: table,
        states,
    };
    course.run_ring(ring.switch, ring.trail)
}

// The round run: the packet runs under all rules over the ring of the switch on the round trail, by a state byte for each label.
pub fn round_run(ring: &Ring, states: &[u8]) -> End
    requires { 2 * ring.now.plant.now.count ≤ length states.now }
    ensures { end_of result ≡ round_run ring.now.plant.now ring.now.trail.now ring.now.switch states.now }
{
    let all = arcs::all_arcs(ring.plant);
    let by_label = Course::<OF_LABEL> {
        plant: ring.plant,
        rules: &all,
        states,
    };
    by_label.run_ring(ring.switch, ring.trail)
}

// The run of probe m of the switch over so many links: the full check if m is their number; else out up to the first crossing of the m-th link of the order, and back,
// under all rules, those of the forwarding table and those that opposite arcs have of their own.
pub fn probe_run(
    ring: &Ring,
    table: &[bool; Plant::LABELS],
    states: &[u8],
    links: u16,
    m: u16,
) -> End
    requires can_run { CanRun ring.now.plant.now table.now states.now }
    requires le_m { 1 ≤ m }
    requires m_le_max_links { m ≤ max_links }
    ensures { end_of result ≡ probe_run ring.now.plant.now (flag table.now) ring.now.trail.now ring.now.switch links (up_by_link states.now) m }
{
    if m == links {
        return full_check(ring, table, states);
    }
    let span = span_of(ring, m);
    let all_rules = arcs::all_arcs(ring.plant);
    let course = Course::<OF_LINK> {
        plant: ring.plant,
        rules: &all_rules,
        states,
    };
    there_and_back(
        &course,
        ring.switch,
        stretch(ring.trail, span),
        front(ring.trail, span),
    )
}
