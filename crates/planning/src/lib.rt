// The plan of a listing, which every call that plans goes through. Inner: the calls are those of docs/CALLS.md.
#![tactic(auto, using(crate::proofs::Charts::few_components, crate::proofs::OneAfterAnother::root_in))]

ghost use Rattle.std.specs.Prelude.{◌≡◌, [], ℕ, ◌+◌, ◌*◌, ◌≤◌, ◌<◌, length, map, IfOk};
ghost use mathlib.Core.List.{flatten};
ghost use Rattle.answers.specs.Checks.{answer};
ghost use Rattle.answers.specs.Results.{answer_as};
ghost use Rattle.listing.specs.Listing.{reading};
ghost use Rattle.walks.specs.Components.{roots, used, links_with};
ghost use Rattle.plan.specs.Plan.{trail_of, round_of, table_of};
ghost use Rattle.components.specs.Found.{Finds};
ghost use Rattle.trail.specs.Filled.{filled_with, Tells};
ghost use Rattle.trail.specs.Ways.{Laid, TellsFrom};
ghost use Rattle.round.specs.Round.{labels_of};
ghost use Rattle.planning.specs.Components.{components_with, component_with, components_of};
ghost use Rattle.planning.specs.Plans.{net_of, trail_at, round_at, HomesAre, HopsBy, LinksBy, Charted, Measured, TablesBy, NetworkOf, LegsBy, NetworkAt, LegsAt};
ghost use Rattle.planning.specs.OneAfterAnother.{LaysEach, TellsEach};
ghost use Rattle.planning.specs.Planning.{planning_at};
ghost use Rattle.planning.specs.Numbers.{numbers_of};

use answers::Refusal;
use arcs::{AllLegs, ArcEnds, Chains, Net, Network};
use components::Found;
use plant::{Plant, in_service};
use round::Round;
use table::Table;

// A component of a plant: its root, where its trail begins among the trails of all and its hops, and where its round trail begins among the round trails of all and its
// hops, two to each of its links in service.
#[derive(Clone, Copy, Debug, PartialEq, Eq)]
pub struct Component {
    pub first: u8,
    pub begin: u16,
    pub hops: u16,
    pub round_begin: u16,
    pub round_hops: u16,
}

// The components of a plant in their order, `count` of them; the places past them are zero.
#[derive(Clone, Copy, Debug, PartialEq, Eq)]
pub struct Components {
    pub count: u8,
    pub list: [Component; Plant::PLACES],
}

// What is found of a plant before its trails: the plant with the ends of its arcs, how many components there are, their roots, the component of each switch, the bridges, and
// the arcs in use. Each is what the definitions say of the plant.
#[derive(Clone, Copy)]
pub struct Chart {
    pub ends: ArcEnds,
    pub count: u8,
    pub roots: [u8; Plant::PLACES],
    pub home: [u8; Plant::PLACES],
    pub bridges: [bool; Plant::MAX_LINKS],
    pub used: [bool; Plant::LABELS],
    pub ghost charted: { Charted ends.plant count roots home bridges used },
}

// A chart, the components with their hops, and the hops of all.
#[derive(Clone, Copy)]
pub struct Layout {
    pub chart: Chart,
    pub components: Components,
    pub hops: u16,
    pub ghost measured: { Measured chart.ends.plant components hops },
}

// The plan of a plant: a layout, and what the trail of each component is laid by: the chains of the arcs in use, the distances over these, and the legs.
#[derive(Clone, Copy)]
pub struct Plan {
    pub layout: Layout,
    pub chains: Chains,
    pub distances: [[u8; Plant::PLACES]; Plant::PLACES],
    pub legs: AllLegs,
    pub ghost tables: { TablesBy layout.chart.ends chains distances },
    pub ghost legs_are: { LegsBy layout.chart.ends legs },
}

// Switches, links in service, bridges, rules and hops of a plant.
#[derive(Clone, Copy, Debug, PartialEq, Eq)]
pub struct Numbers {
    pub switches: u8,
    pub links: u16,
    pub bridges: u16,
    pub rules: u16,
    pub hops: u16,
}

impl Components {
    pub fn none() -> Components
        ensures { result ≡ components_with [] }
    {
        let zero = Component {
            first: 0,
            begin: 0,
            hops: 0,
            round_begin: 0,
            round_hops: 0,
        };
        let list = [zero; Plant::PLACES];
        Components { count: 0, list }
    }
}

// The sizes of a plant's network from a root.
fn net_of(ends: &ArcEnds, root: u8) -> Net
    ensures { result ≡ net_of ends.now.plant root }
{
    Net {
        switches: ends.plant.switches,
        labels: 2 * ends.plant.count,
        root,
    }
}

// The links in service of each component, by the component of each switch.
fn links_by(ends: &ArcEnds, home: &[u8; Plant::PLACES]) -> [u16; Plant::PLACES]
    requires { HomesAre ends.now.plant home.now }
    ensures { LinksBy ends.now.plant result }
{
    let p = &ends.plant;
    let mut links = [0u16; Plant::PLACES];
    for link in &p.links[..usize::from(p.count)] {
        if in_service(*link) {
            let y = usize::from(link.first);
            let i = usize::from(home[y]);
            links[i] += 1;
        }
    }
    links
}

// The components of a plant, where the trail and the round trail of each begins and their hops, and the hops of all trails: by the components that were found, and the hops of the
// legs of each.
fn measured(ends: &ArcEnds, f: &Found, legs: &AllLegs) -> (Components, u16)
    requires finds { Finds ends.now.plant f.now }
    requires hops_by { HopsBy ends.now.plant legs.now.list }
    ensures components_are { result.0 ≡ components_of ends.now.plant }
    ensures hops_are { result.1 ≡ length (trail_of ends.now.plant) }
{
    let links = links_by(ends, &f.home);
    let mut components = Components::none();
    let mut begin: u16 = 0;
    let mut round: u16 = 0;
    for i in 0..usize::from(f.count) {
        let hops = legs.list[i].hops;
        let both = 2 * links[i];
        components.list[i] = Component {
            first: f.roots[i],
            begin,
            hops,
            round_begin: round,
            round_hops: both,
        };
        begin += hops;
        round += both;
    }
    components.count = f.count;
    (components, begin)
}

// The plan of a sound plant. A plan is large, and the place of a call's result is cleared before the call and copied after it: so a macro makes a plan in the place where it is
// answered, and the functions that answer one are not inlined.
macro_rules! planned {
    ($plant:expr) => {{
        let ends = arcs::ends_of($plant);
        let f = components::find(&ends);
        let net = net_of(&ends, ends.plant.start);
        let chains = arcs::chains_of(&ends.tails, &f.used, net.labels);
        let distances = distance::distances(net, &ends.tails, &ends.heads, &f.used);
        let roots = &f.roots[..usize::from(f.count)];
        let legs = legs::legs_of(net, &ends.tails, &ends.heads, &chains, distances, roots);
        let (components, hops) = measured(&ends, &f, &legs);
        let chart = Chart {
            ends,
            count: f.count,
            roots: f.roots,
            home: f.home,
            bridges: f.bridges,
            used: f.used,
        };
        let layout = Layout {
            chart,
            components,
            hops,
        };
        Plan {
            layout,
            chains,
            distances,
            legs,
        }
    }};
}

// The plan of a listing: refusals 1 to 8. Its chains are those of its arcs in use, and its table has the fewest hops over these between every two switches.
#[inline(never)]
pub fn plan_of(listing: &[u8]) -> Result<Plan, Refusal>
    ensures plant_value { answer_as (λ (x : Plan). x.layout.chart.ends.plant) result ≡ answer (reading listing.now) }
    ensures network_is { IfOk result (λ (x : Plan). NetworkOf x.layout.chart.used x.layout.chart.ends x.chains x.distances) }
{
    let p = reading::read(listing)?;
    Ok(planned!(p))
}

// The plan of a listing that has the named switch, of which the same is told: refusals 1 to 8, then 11.
#[inline(never)]
pub fn plan_at(listing: &[u8], switch: u8) -> Result<Plan, Refusal>
    ensures plant_value { answer_as (λ (x : Plan). x.layout.chart.ends.plant) result ≡ answer (planning_at listing.now switch) }
    ensures network_is { IfOk result (λ (x : Plan). NetworkOf x.layout.chart.used x.layout.chart.ends x.chains x.distances) }
{
    let p = reading::read(listing)?;
    answers::judge(p.switches <= switch, Refusal::SwitchOutOfRange)?;
    Ok(planned!(p))
}

// ---- the component of a switch

// The component of a switch.
pub fn component_with(x: &Layout, switch: u8) -> Component
    requires { switch < x.now.chart.ends.plant.switches }
    ensures { result ≡ component_with x.now.chart.ends.plant switch }
{
    let i = usize::from(x.chart.home[usize::from(switch)]);
    x.components.list[i]
}

// E for a switch, the links in service of its component; a switch that is none has no link.
pub fn links_with(x: &Layout, switch: u8) -> u16
    ensures { result ≡ links_with x.now.chart.ends.plant switch }
{
    if switch < x.chart.ends.plant.switches {
        let c = component_with(x, switch);
        return c.round_hops / 2;
    }
    0
}

// ---- the trails

// The network that the trail of component i is laid by.
fn network_at(x: &Plan, i: usize) -> Network<'_>
    requires { i < length (roots x.now.layout.chart.ends.plant) }
    ensures { NetworkAt x.now.layout.chart.ends x.now.chains x.now.distances i result }
{
    let chart = &x.layout.chart;
    Network {
        net: net_of(&chart.ends, chart.roots[i]),
        tails: &chart.ends.tails,
        heads: &chart.ends.heads,
        chains: &x.chains,
        hops: &x.distances,
    }
}

// The arcs that the legs of the trail of component i cross.
fn legs_at(x: &Plan, i: usize) -> &[u16]
    requires { i < length (roots x.now.layout.chart.ends.plant) }
    ensures { LegsAt x.now.layout.chart.ends i result.now }
{
    let legs = x.legs.list[i];
    &x.legs.aims[usize::from(legs.from)..usize::from(legs.to)]
}

// Lists laid one after another into the front of a lent buffer that has room for them, each from the place where the one before ended: `lay` lays list i. The places after them
// keep their contents.
fn lay_each<F: Fn(usize, usize, &mut [u16]) -> usize>(count: u8, lay: F, buf: &mut [u16])
    requires { LaysEach (F.pre lay) (F.post lay) count (length buf.old) }
    ensures { (w : LaysEach (F.pre lay) (F.post lay) count (length buf.old)) → buf.new ≡ filled_with (flatten (map w.list w.numbers)) buf.old }
{
    let mut at: usize = 0;
    for i in 0..usize::from(count) {
        at = lay(i, at, buf);
    }
}

// The trails of a plan one after another into the front of a lent buffer that has room for them; the places after them keep their contents.
pub fn lay(x: &Plan, buf: &mut [u16])
    requires { length (trail_of x.now.layout.chart.ends.plant) ≤ length buf.old }
    ensures { buf.new ≡ filled_with (trail_of x.now.layout.chart.ends.plant) buf.old }
{
    let one = |i: usize, from: usize, b: &mut [u16]| -> usize
        requires { (i < length (roots x.now.layout.chart.ends.plant)) × (from + length (trail_at x.now.layout.chart.ends.plant i) ≤ length b.now) }
        ensures { Laid (trail_at x.entry.now.layout.chart.ends.plant i) b.entry.now from b.exit.now result }
    { trail::lay(&network_at(x, i), legs_at(x, i), b, from) };
    lay_each(x.layout.chart.count, one, buf);
}

// Lists compared one after another, each from the place where the one before ended: `compare` tells it of list i.
fn compare_each<F: Fn(usize, usize) -> Option<usize>>(count: u8, compare: F) -> Option<usize>
    requires { (i from : ℕ) → i < count → F.pre compare i from }
    ensures { (w : TellsEach (F.post compare) count) → Tells w.lent (flatten (map w.list w.numbers)) result }
{
    let mut at: usize = 0;
    for i in 0..usize::from(count) {
        at = compare(i, at)?;
    }
    Some(at)
}

// Does the lent slice begin with the hops of the trails of a plan, one after another? Then how many they are.
pub fn compare(x: &Plan, lent: &[u16]) -> Option<usize>
    ensures { Tells lent.now (trail_of x.now.layout.chart.ends.plant) result }
{
    let one = |i: usize, from: usize| -> Option<usize>
        requires { i < length (roots x.now.layout.chart.ends.plant) }
        ensures { TellsFrom from lent.entry.now (trail_at x.entry.now.layout.chart.ends.plant i) result }
    { trail::compare(&network_at(x, i), legs_at(x, i), lent, from) };
    compare_each(x.layout.chart.count, one)
}

// ---- the round trails

// The round trail of component i.
fn round_at(x: &Chart, i: usize) -> Round
    requires { i < length (roots x.now.ends.plant) }
    ensures { labels_of result ≡ round_at x.now.ends.plant i }
{
    let v = visit::visit(&x.ends, x.roots[i]);
    round::round_of(&x.ends, v)
}

// The round trails of a plant one after another into the front of a lent buffer that has room for them; the places after them keep their contents.
pub fn lay_round(x: &Chart, buf: &mut [u16])
    requires { length (round_of x.now.ends.plant) ≤ length buf.old }
    ensures { buf.new ≡ filled_with (round_of x.now.ends.plant) buf.old }
{
    let one = |i: usize, from: usize, b: &mut [u16]| -> usize
        requires { (i < length (roots x.now.ends.plant)) × (from + length (round_at x.now.ends.plant i) ≤ length b.now) }
        ensures { Laid (round_at x.entry.now.ends.plant i) b.entry.now from b.exit.now result }
    { round::lay(round_at(x, i), b, from) };
    lay_each(x.count, one, buf);
}

// Does the lent slice begin with the hops of the round trails of a plant, one after another? Then how many they are.
pub fn compare_round(x: &Chart, lent: &[u16]) -> Option<usize>
    ensures { Tells lent.now (round_of x.now.ends.plant) result }
{
    let one = |i: usize, from: usize| -> Option<usize>
        requires { i < length (roots x.now.ends.plant) }
        ensures { TellsFrom from lent.entry.now (round_at x.entry.now.ends.plant i) result }
    { round::compare(round_at(x, i), lent, from) };
    compare_each(x.count, one)
}

// ---- the forwarding table and the numbers, over all components

// The forwarding table of a plant.
pub fn table_of(x: &Chart) -> Table
    ensures { result ≡ table_of x.now.ends.plant }
{
    table::table_of(
        &x.ends.tails,
        &x.ends.heads,
        &x.used,
        2 * x.ends.plant.count,
    )
}

// The numbers of a plant.
pub fn numbers_of(x: &Layout) -> Numbers
    ensures { result ≡ numbers_of x.now.chart.ends.plant }
{
    let bridges = uses::count_set(&x.chart.bridges);
    let rules = uses::count_set(&x.chart.used);
    let links = arcs::links_in_service(x.chart.ends.plant);
    Numbers {
        switches: x.chart.ends.plant.switches,
        links,
        bridges: bridges as u16,
        rules: rules as u16,
        hops: x.hops,
    }
}
