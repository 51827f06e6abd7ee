// The calls on listings, plants and orders: each is given a listing, a plant or numbers, asks nothing, and refuses what is wrong (docs/CALLS.md). Every public
// function here is a call. Calls on packets and searches are in the crate `probing`, those on a desk in `consoles`.
#![tactic(auto)]

ghost use Rattle.std.specs.Prelude.{◌≡◌};
ghost use Rattle.answers.specs.Checks.{answer};
ghost use Rattle.answers.specs.Results.{answer_of};
ghost use Rattle.listing.specs.Writing.{buffer_after, writing};
ghost use Rattle.listing.specs.Listing.{reading};
ghost use Rattle.quantity.specs.Quantity.{order_quantity};
ghost use Rattle.allowance.specs.Allowance.{allowance};
ghost use Rattle.sheet.specs.Form.{reading_page};
ghost use Rattle.planner.specs.Calls.{rewriting, rewritten, rereading, tabling, counting, bridging, parting, summing, trailing, laid_out, round_trailing, round_laid_out, buying, bought_out};
ghost use Rattle.planner.specs.Answers.{AddsUp};

use answers::{Refusal, judge_room};
use planning::{Components, Numbers};
use plant::Plant;
use senders::BySwitch;
use sheet::Sheet;
use table::Table;

// The plant of a listing: refusals 1 to 8.
pub fn read(listing: &[u8]) -> Result<Plant, Refusal>
    ensures { answer_of result ≡ answer (reading listing.now) }
{
    reading::read(listing)
}

// The listing of a plant into the front of the lent buffer, and its length: refusals 5, 6, 7 and 16.
pub fn write(p: Plant, buffer: &mut [u8]) -> Result<usize, Refusal>
    ensures result_value { answer_of result ≡ answer (writing p buffer.old) }
    ensures buffer_now { buffer.new ≡ buffer_after p buffer.old }
{
    writing::write(p, buffer)
}

// A listing read and written again: the same bytes at the front of the lent buffer. Refusals 1 to 8, then 16.
pub fn rewrite(listing: &[u8], buffer: &mut [u8]) -> Result<usize, Refusal>
    ensures result_value { answer_of result ≡ answer (rewriting listing.now buffer.old) }
    ensures buffer_now { buffer.new ≡ rewritten listing.now buffer.old }
{
    let p = reading::read(listing)?;
    writing::write(p, buffer)
}

// A plant written into the lent buffer and read again from there: the same plant. Refusals 5, 6, 7 and 16.
pub fn reread(p: Plant, buffer: &mut [u8]) -> Result<Plant, Refusal>
    ensures reads { answer_of result ≡ answer (rereading p buffer.old) }
    ensures buffer_now { buffer.new ≡ buffer_after p buffer.old }
{
    let n = writing::write(p, buffer)?;
    reading::read(&buffer[..n])
}

// The forwarding table of a listing: refusals 1 to 8.
pub fn forwarding_table(listing: &[u8]) -> Result<Table, Refusal>
    ensures { answer_of result ≡ answer (tabling listing.now) }
{
    let plan = planning::plan_of(listing)?;
    Ok(planning::table_of(&plan.layout.chart))
}

// The number of rules of a listing that each switch sends by, and their total over switches: refusals 1 to 8.
#[tactic(auto, using(crate::proofs::Planned::counting_is))]
pub fn rules_by_switch(listing: &[u8]) -> Result<BySwitch, Refusal>
    ensures counts { answer_of result ≡ answer (counting listing.now) }
    ensures adds_up { AddsUp listing.now result }
{
    let planned = planning::plan_of(listing)?;
    let table = planning::table_of(&planned.layout.chart);
    let rules = senders::by_switch(table);
    Ok(rules)
}

// The bridges of a listing, a flag for each link place; a link out of service is none: refusals 1 to 8.
#[tactic(auto, using(crate::proofs::Planned::bridging_is, crate::proofs::Trailing::flags_are))]
pub fn find_bridges(listing: &[u8]) -> Result<[bool; Plant::MAX_LINKS], Refusal>
    ensures { answer_of result ≡ answer (bridging listing.now) }
{
    let bridges = planning::plan_of(listing)?.layout.chart.bridges;
    Ok(bridges)
}

// The components of a listing in their order: how many, and of each its root, where its trail begins among the trails of all and its hops, and the same of its round trail:
// refusals 1 to 8.
#[tactic(auto, using(crate::proofs::Planned::parting_is))]
pub fn find_components(listing: &[u8]) -> Result<Components, Refusal>
    ensures { answer_of result ≡ answer (parting listing.now) }
{
    let components = planning::plan_of(listing)?.layout.components;
    Ok(components)
}

// Switches, links, bridges, rules and hops of a listing: refusals 1 to 8.
pub fn summarize(listing: &[u8]) -> Result<Numbers, Refusal>
    ensures { answer_of result ≡ answer (summing listing.now) }
{
    let plan = planning::plan_of(listing)?;
    Ok(planning::numbers_of(&plan.layout))
}

// The trails of a listing's components one after another into the front of the lent buffer, and their hops: refusals 1 to 8, then 10.
pub fn lay_trail(listing: &[u8], buffer: &mut [u16]) -> Result<u16, Refusal>
    ensures result_value { answer_of result ≡ answer (trailing listing.now buffer.old) }
    ensures buffer_now { buffer.new ≡ laid_out listing.now buffer.old }
{
    let plan = planning::plan_of(listing)?;
    judge_room(
        usize::from(plan.layout.hops),
        buffer.len(),
        Refusal::TrailBufferShort,
    )?;
    planning::lay(&plan, buffer);
    Ok(plan.layout.hops)
}

// The round trails of a listing's components one after another into the front of the lent buffer, and their hops: refusals 1 to 8, then 10.
// Its steps are those of `lay_trail`; what is laid and where the hops are known from differ, and a function over both would take a closure and be longer.
pub fn lay_round_trail(listing: &[u8], buffer: &mut [u16]) -> Result<u16, Refusal>
    ensures result_value { answer_of result ≡ answer (round_trailing listing.now buffer.old) }
    ensures buffer_now { buffer.new ≡ round_laid_out listing.now buffer.old }
{
    let plan = planning::plan_of(listing)?;
    let hops = 2 * arcs::links_in_service(plan.layout.chart.ends.plant);
    judge_room(usize::from(hops), buffer.len(), Refusal::TrailBufferShort)?;
    planning::lay_round(&plan.layout.chart, buffer);
    Ok(hops)
}

// The buying page of a listing with a spare in percent into the front of the lent buffer, and its length: refusals 1 to 8, then 17, then 18.
pub fn write_buying_page(listing: &[u8], spare: u8, buffer: &mut [u8]) -> Result<usize, Refusal>
    ensures result_value { answer_of result ≡ answer (buying listing.now spare buffer.old) }
    ensures buffer_now { buffer.new ≡ bought_out listing.now spare buffer.old }
{
    let plan = planning::plan_of(listing)?;
    quoting::put_page(&plan.layout.chart, spare, buffer)
}

// The counts of a buying page: refusal 18.
pub fn read_buying_page(page: &[u8]) -> Result<Sheet, Refusal>
    ensures { answer_of result ≡ answer (reading_page page.now) }
{
    readback::read(page)
}

// The order quantity for so many rules and a spare in percent: refusal 17.
pub fn order_quantity(rules: u16, spare: u8) -> Result<u32, Refusal>
    ensures { answer_of result ≡ answer (order_quantity rules spare) }
{
    quantity::order_quantity(rules, spare)
}

// The allowance of a search over so many links: the least k with 2^k at least that number. No refusal.
pub fn allowance(links: u16) -> u8
    ensures { result ≡ allowance links }
{
    allowance::allowance(links)
}
