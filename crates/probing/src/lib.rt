// The calls on packets, probes and searches: each is given a listing, a search or a lent trail, asks nothing, and refuses what is wrong (docs/CALLS.md). Every public
// function here is a call. Calls on listings, plants and orders are in the crate `planner`, those on a desk in `consoles`.
#![tactic(auto)]

ghost use Rattle.std.specs.Prelude.{◌≡◌, false, ◌≤◌, ◌<◌};
ghost use Rattle.answers.specs.Results.{answer_as, answer_of};
ghost use Rattle.answers.specs.Checks.{answer};
ghost use Rattle.limits.specs.Limits.{max_links};
ghost use Rattle.judging.specs.Conditions.{hops_differ};
ghost use Rattle.lists.specs.Arrays.{flag};
ghost use Rattle.walks.specs.Components.{links_with, used};
ghost use Rattle.plan.specs.Plan.{trail_of, trail_with, round_of, round_with};
ghost use Rattle.rings.specs.Injection.{order_of};
ghost use Rattle.choosing.specs.Choice.{hops_in};
ghost use Rattle.order.specs.Span.{stretch_of, front_of};
ghost use Rattle.packet.specs.Asked.{CanRun};
ghost use Rattle.packet.specs.Runs.{end_of};
ghost use Rattle.packet.specs.Outcome.{outcome_of};
ghost use Rattle.search.specs.Search.{ask, give};
ghost use Rattle.search.specs.Answers.{calls_in, SaysIn};
ghost use Rattle.probing.specs.Calls.{run_in, running, check_in, checking, round_in, round_running, choice_from, choice_in, choosing, order_in, ordering, own_span, out_span, outward_in, outgoing, probe_over, probe_in, probing, named_in, name_in, naming, beginning, performing};
ghost use Rattle.probing.specs.Answers.{name_as, ChosenHops, OutwardParts, Performs};

use answers::Refusal;
use choosing::Choice;
use order::{Order, Ring, Span};
use packet::End;
use planning::{Chart, Layout, Plan};
use plant::Plant;
use search::{Outcome, Progress, Said, Search};

// What a search names: the link that is down, none since all links are up, or nothing yet since it has not ended.
#[derive(Clone, Copy, Debug, PartialEq, Eq)]
pub enum Named {
    Link(u16),
    AllUp,
    Open,
}

// ---- the outcome of a run

// The two-way outcome of a run, as it is given to a search. No refusal.
pub fn outcome_of(end: End) -> Outcome
    ensures { result ≡ outcome_of (end_of end) }
{
    packet::outcome_of(end)
}

// ---- the component of a switch in lent trails

// The trail of the component of a switch, as a part of the lent trails of all components.
fn own_trail<'a>(layout: &Layout, switch: u8, trail: &'a [u16]) -> &'a [u16]
    requires switch_lt_switches { switch < layout.now.chart.ends.plant.switches }
    requires trail_value { trail.now ≡ trail_of layout.now.chart.ends.plant }
    ensures { result.now ≡ trail_with layout.now.chart.ends.plant switch }
{
    let c = planning::component_with(layout, switch);
    order::part(trail, c.begin as usize, c.hops as usize)
}

// Its round trail, as a part of the lent round trails of all components, which may have spare places.
fn own_round<'a>(layout: &Layout, switch: u8, round: &'a [u16]) -> &'a [u16]
    requires switch_lt_switches { switch < layout.now.chart.ends.plant.switches }
    requires round_value { hops_differ (round_of layout.now.chart.ends.plant) round.now ≡ false }
    ensures { result.now ≡ round_with layout.now.chart.ends.plant switch }
{
    let c = planning::component_with(layout, switch);
    order::part(round, c.round_begin as usize, c.round_hops as usize)
}

// ---- a packet that is no probe

// A packet runs under the forwarding table of a plan alone: refusal 13.
fn run_in(chart: &Chart, switch: u8, labels: &[u16], states: &[u8]) -> Result<End, Refusal>
    ensures { answer_as end_of result ≡ answer (run_in switch labels.now states.now chart.now.ends.plant) }
{
    if judging::too_few(states, chart.ends.plant.count) {
        return Err(Refusal::StatesShort);
    }
    Ok(packet::run_on(
        &chart.ends.plant,
        &chart.used,
        states,
        packet::injected(switch),
        labels,
    ))
}

// The run of a packet that is injected at a switch and is no probe: refusals 1 to 8, 11 and 13.
pub fn run(listing: &[u8], switch: u8, labels: &[u16], states: &[u8]) -> Result<End, Refusal>
    ensures { answer_as end_of result ≡ answer (running listing.now switch labels.now states.now) }
{
    let plan = planning::plan_at(listing, switch)?;
    run_in(&plan.layout.chart, switch, labels, states)
}

// ---- the full check

// The full check in a plan: refusals 12 and 13.
fn check_in(plan: &Plan, switch: u8, trail: &[u16], states: &[u8]) -> Result<End, Refusal>
    requires { switch < plan.now.layout.chart.ends.plant.switches }
    ensures { answer_as end_of result ≡ answer (check_in switch trail.now states.now plan.now.layout.chart.ends.plant) }
{
    judging::judge_lent(plan, trail, states)?;
    let own = own_trail(&plan.layout, switch, trail);
    let ring = Ring {
        plant: &plan.layout.chart.ends.plant,
        switch,
        trail: own,
    };
    Ok(packet::full_check(&ring, &plan.layout.chart.used, states))
}

// The full check from a switch: refusals 1 to 8, 11, 12 and 13.
pub fn full_check(listing: &[u8], switch: u8, trail: &[u16], states: &[u8]) -> Result<End, Refusal>
    ensures { answer_as end_of result ≡ answer (checking listing.now switch trail.now states.now) }
{
    let plan = planning::plan_at(listing, switch)?;
    check_in(&plan, switch, trail, states)
}

// ---- the round run

// The round run over a lent round trail in a plan: refusals 12 and 13.
fn round_in(layout: &Layout, switch: u8, round: &[u16], states: &[u8]) -> Result<End, Refusal>
    requires { switch < layout.now.chart.ends.plant.switches }
    ensures { answer_as end_of result ≡ answer (round_in switch round.now states.now layout.now.chart.ends.plant) }
{
    judging::judge_round(&layout.chart, round, states)?;
    let own = own_round(layout, switch, round);
    let ring = Ring {
        plant: &layout.chart.ends.plant,
        switch,
        trail: own,
    };
    Ok(packet::round_run(&ring, states))
}

// The round run from a switch, by a state byte for each label: refusals 1 to 8, 11, 12 and 13. The lent round trail may have spare places.
pub fn round_run(listing: &[u8], switch: u8, round: &[u16], states: &[u8]) -> Result<End, Refusal>
    ensures { answer_as end_of result ≡ answer (round_running listing.now switch round.now states.now) }
{
    let plan = planning::plan_at(listing, switch)?;
    round_in(&plan.layout, switch, round, states)
}

// ---- the shorter of two lent trails

// Of the trail and the round trail of the component of a switch in a plan, where the round trails of all are lent: refusal 12.
fn choose_from(layout: &Layout, switch: u8, round: &[u16]) -> Result<Choice, Refusal>
    requires { switch < layout.now.chart.ends.plant.switches }
    ensures { answer_of result ≡ answer (choice_from switch round.now layout.now.chart.ends.plant) }
{
    let Some(_) = planning::compare_round(&layout.chart, round) else {
        return Err(Refusal::TrailDiffers);
    };
    let c = planning::component_with(layout, switch);
    Ok(choosing::fewer(
        c.begin as usize,
        c.hops as usize,
        c.round_begin as usize,
        c.round_hops as usize,
    ))
}

// Of the lent trails and the lent round trails of all components in a plan: refusal 12 of either.
fn choose_in(plan: &Plan, switch: u8, trail: &[u16], round: &[u16]) -> Result<Choice, Refusal>
    requires { switch < plan.now.layout.chart.ends.plant.switches }
    ensures { answer_of result ≡ answer (choice_in switch trail.now round.now plan.now.layout.chart.ends.plant) }
{
    let Some(_) = planning::compare(plan, trail) else {
        return Err(Refusal::TrailDiffers);
    };
    choose_from(&plan.layout, switch, round)
}

// Which of the trail and the round trail of the component of a switch has fewer hops, where it begins in what is lent, and how many: refusals 1 to 8, 11 and 12. Both may have spare places.
pub fn shorter_trail(
    listing: &[u8],
    switch: u8,
    trail: &[u16],
    round: &[u16],
) -> Result<Choice, Refusal>
    ensures result_value { answer_of result ≡ answer (choosing listing.now switch trail.now round.now) }
    ensures chosen_hops { ChosenHops listing.now switch trail.now round.now (answer_of result) }
{
    let plan = planning::plan_at(listing, switch)?;
    choose_in(&plan, switch, trail, round)
}

// The hops of the lent trail that was chosen, as a part of it: as much as is there. No refusal.
pub fn chosen<'a>(trail: &'a [u16], round: &'a [u16], choice: Choice) -> &'a [u16]
    ensures { result.now ≡ hops_in trail.now round.now choice }
{
    choosing::hops_of(trail, round, choice)
}

// ---- the order of links

// The order of links in a plan: refusal 12.
fn order_in(plan: &Plan, switch: u8, trail: &[u16]) -> Result<Order, Refusal>
    requires { switch < plan.now.layout.chart.ends.plant.switches }
    ensures { answer_of result ≡ answer (order_in switch trail.now plan.now.layout.chart.ends.plant) }
{
    if judging::differs(plan, trail) {
        return Err(Refusal::TrailDiffers);
    }
    let own = own_trail(&plan.layout, switch, trail);
    let ring = Ring {
        plant: &plan.layout.chart.ends.plant,
        switch,
        trail: own,
    };
    Ok(order::order_of(&ring))
}

// The links of the component of a switch by first crossing from its place: refusals 1 to 8, 11 and 12.
pub fn order_of_links(listing: &[u8], switch: u8, trail: &[u16]) -> Result<Order, Refusal>
    ensures { answer_of result ≡ answer (ordering listing.now switch trail.now) }
{
    let plan = planning::plan_at(listing, switch)?;
    order_in(&plan, switch, trail)
}

// ---- the outward labels of the probe wanted

// Where the outward labels of probe m over so many links stand in the trail of a component: the whole ring, if m is their number.
fn span_in(ring: &Ring, links: u16, m: u16) -> Span
    requires own_value { ring.now.trail.now ≡ trail_with ring.now.plant.now ring.now.switch }
    requires links_value { links ≡ links_with ring.now.plant.now ring.now.switch }
    requires le_m { 1 ≤ m }
    requires m_le_max_links { m ≤ max_links }
    ensures { result ≡ own_span ring.now.plant.now ring.now.switch m }
{
    if m == links {
        return order::ring_span(ring);
    }
    order::span_of(ring, m)
}

// Where they stand in the lent trails of all components.
fn span_of(layout: &Layout, switch: u8, trail: &[u16], links: u16, m: u16) -> Span
    requires switch_lt_switches { switch < layout.now.chart.ends.plant.switches }
    requires trail_value { trail.now ≡ trail_of layout.now.chart.ends.plant }
    requires links_value { links ≡ links_with layout.now.chart.ends.plant switch }
    requires le_m { 1 ≤ m }
    requires m_le_links { m ≤ links }
    ensures { result ≡ out_span layout.now.chart.ends.plant switch m }
{
    let c = planning::component_with(layout, switch);
    let own = own_trail(layout, switch, trail);
    let ring = Ring {
        plant: &layout.chart.ends.plant,
        switch,
        trail: own,
    };
    let span = span_in(&ring, links, m);
    order::shifted(span, c.begin as usize)
}

// The outward labels in a plan: refusals 12, 14 and 15.
fn outward_in(plan: &Plan, switch: u8, trail: &[u16], search: Search) -> Result<Span, Refusal>
    requires { switch < plan.now.layout.chart.ends.plant.switches }
    ensures { answer_of result ≡ answer (outward_in switch trail.now search plan.now.layout.chart.ends.plant) }
{
    if judging::differs(plan, trail) {
        return Err(Refusal::TrailDiffers);
    }
    let links = planning::links_with(&plan.layout, switch);
    let m = judging::probe_wanted(links, search)?;
    Ok(span_of(&plan.layout, switch, trail, links, m))
}

// Where the outward labels of the probe that a search wants stand in the lent trail: refusals 1 to 8, 11, 12, 14 and 15.
pub fn outward_labels(
    listing: &[u8],
    switch: u8,
    trail: &[u16],
    search: Search,
) -> Result<Span, Refusal>
    ensures result_value { answer_of result ≡ answer (outgoing listing.now switch trail.now search) }
    ensures outward_parts { OutwardParts listing.now switch trail.now search (answer_of result) }
{
    let plan = planning::plan_at(listing, switch)?;
    outward_in(&plan, switch, trail, search)
}

// The stretch of a lent trail that the bounds name, as much of it as is there. No refusal.
pub fn stretch<'a>(trail: &'a [u16], span: Span) -> &'a [u16]
    ensures { result.now ≡ stretch_of trail.now span }
{
    order::stretch(trail, span)
}

// The front of a lent trail that the bounds name, as much of it as is there. No refusal.
pub fn front<'a>(trail: &'a [u16], span: Span) -> &'a [u16]
    ensures { result.now ≡ front_of trail.now span }
{
    order::front(trail, span)
}

// ---- the run of the probe wanted

// The run of the probe wanted over the trail of a component with so many links, with enough state bytes: refusals 14 and 15.
fn probe_over(
    ring: &Ring,
    table: &[bool; Plant::LABELS],
    states: &[u8],
    links: u16,
    search: Search,
) -> Result<End, Refusal>
    requires can_run { CanRun ring.now.plant.now table.now states.now }
    requires table_value { flag table.now ≡ used ring.now.plant.now }
    requires own_value { ring.now.trail.now ≡ trail_with ring.now.plant.now ring.now.switch }
    requires links_value { links ≡ links_with ring.now.plant.now ring.now.switch }
    requires links_le_max_links { links ≤ max_links }
    ensures { answer_as end_of result ≡ answer (probe_over ring.now.plant.now ring.now.switch states.now search) }
{
    let m = judging::probe_wanted(links, search)?;
    Ok(packet::probe_run(ring, table, states, links, m))
}

// The run of the probe wanted in a plan: refusals 12 to 15.
fn probe_in(
    plan: &Plan,
    switch: u8,
    trail: &[u16],
    states: &[u8],
    search: Search,
) -> Result<End, Refusal>
    requires { switch < plan.now.layout.chart.ends.plant.switches }
    ensures { answer_as end_of result ≡ answer (probe_in switch trail.now states.now search plan.now.layout.chart.ends.plant) }
{
    judging::judge_lent(plan, trail, states)?;
    let own = own_trail(&plan.layout, switch, trail);
    let links = planning::links_with(&plan.layout, switch);
    let ring = Ring {
        plant: &plan.layout.chart.ends.plant,
        switch,
        trail: own,
    };
    probe_over(&ring, &plan.layout.chart.used, states, links, search)
}

// The run of the probe that a search wants: refusals 1 to 8 and 11 to 15.
pub fn run_probe(
    listing: &[u8],
    switch: u8,
    trail: &[u16],
    states: &[u8],
    search: Search,
) -> Result<End, Refusal>
    ensures { answer_as end_of result ≡ answer (probing listing.now switch trail.now states.now search) }
{
    let plan = planning::plan_at(listing, switch)?;
    probe_in(&plan, switch, trail, states, search)
}

// ---- the link named

// What is named in the component of a switch with this trail by what a sound search says.
fn name_of(ring: &Ring, said: Said) -> Named
    requires own_value { ring.now.trail.now ≡ trail_with ring.now.plant.now ring.now.switch }
    requires says_in { SaysIn max_links said }
    ensures { name_as result ≡ named_in (order_of ring.now.plant.now (trail_with ring.now.plant.now ring.now.switch) ring.now.switch) said }
{
    match said {
        Said::Open => Named::Open,
        Said::AllUp => Named::AllUp,
        Said::Down(place) => {
            let o = order::order_of(ring);
            let j = (place - 1) as usize;
            Named::Link(o.links[j])
        }
    }
}

// What a search names in a plan: refusals 12 and 14.
fn name_in(plan: &Plan, switch: u8, trail: &[u16], search: Search) -> Result<Named, Refusal>
    requires { switch < plan.now.layout.chart.ends.plant.switches }
    ensures { answer_as name_as result ≡ answer (name_in switch trail.now search plan.now.layout.chart.ends.plant) }
{
    if judging::differs(plan, trail) {
        return Err(Refusal::TrailDiffers);
    }
    let links = planning::links_with(&plan.layout, switch);
    if judging::unsound(links, search) {
        return Err(Refusal::SearchUnsound);
    }
    let own = own_trail(&plan.layout, switch, trail);
    let ring = Ring {
        plant: &plan.layout.chart.ends.plant,
        switch,
        trail: own,
    };
    Ok(name_of(&ring, search.says()))
}

// The link that a search names from a switch: refusals 1 to 8, 11, 12 and 14.
pub fn link_named(
    listing: &[u8],
    switch: u8,
    trail: &[u16],
    search: Search,
) -> Result<Named, Refusal>
    ensures { answer_as name_as result ≡ answer (naming listing.now switch trail.now search) }
{
    let plan = planning::plan_at(listing, switch)?;
    name_in(&plan, switch, trail, search)
}

// ---- the search

// A new search over the links of the component of an injection switch: refusals 1 to 8 and 11.
pub fn new_search(listing: &[u8], switch: u8) -> Result<Search, Refusal>
    ensures { answer_of result ≡ answer (beginning listing.now switch) }
{
    let plan = planning::plan_at(listing, switch)?;
    let links = planning::links_with(&plan.layout, switch);
    Ok(Search::new(links))
}

// The probe that a search wants, by its state alone: refusals 14 and 15.
pub fn ask(search: Search) -> Result<u16, Refusal>
    ensures { answer_of result ≡ answer (ask search) }
{
    search.ask()
}

// The state after a sending of the probe wanted had an outcome: refusals 14 and 15.
pub fn give(search: Search, outcome: Outcome) -> Result<Search, Refusal>
    ensures { answer_of result ≡ answer (give search outcome) }
{
    search.give(outcome)
}

// The calls, each a byte, after a new search over the links of the component of an injection switch: refusals 1 to 8 and 11. Where they led to, and what demand 3 says of
// that.
pub fn perform(listing: &[u8], switch: u8, calls: &[u8]) -> Result<Progress, Refusal>
    ensures result_value { answer_of result ≡ answer (performing listing.now switch (calls_in calls.now)) }
    ensures performs { Performs listing.now switch (calls_in calls.now) (answer_of result) }
{
    let plan = planning::plan_at(listing, switch)?;
    let links = planning::links_with(&plan.layout, switch);
    Ok(performing::perform(links, calls))
}
