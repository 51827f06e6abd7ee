// The calls on a desk of four consoles: each is lent a desk, which it alters, is given a listing and the number of a console, asks nothing, and refuses what is wrong
// (docs/CALLS.md). Every public function here is a call. A call is thin: it reads off the listing what it goes by, and lays down on the desk what the crate `desk` makes of the
// console. A refusal leaves before anything is laid down.
#![tactic(auto)]

ghost use Rattle.std.specs.Prelude.{◌≡◌};
ghost use Rattle.answers.specs.Checks.{answer};
ghost use Rattle.answers.specs.Results.{answer_as, answer_of};
ghost use Rattle.desk.specs.Desk.{fresh_desk};
ghost use Rattle.consoles.specs.Answers.{sized};
ghost use Rattle.consoles.specs.Calls.{sizing, new_set, start, outcome, serving, served};

use answers::Refusal;
use desk::{Console, Desk, Size};
use search::Outcome;

// The switches of a listing's plant, and the links in service of the component of a switch: refusals 19 and 1 to 8.
fn size_of(console: u8, listing: &[u8], switch: u8) -> Result<Size, Refusal>
    ensures { answer_as sized result ≡ answer (sizing console listing.now switch) }
{
    let past = usize::from(console) >= Desk::CONSOLES;
    answers::judge(past, Refusal::ConsoleOutOfRange)?;
    let plan = planning::plan_of(listing)?;
    let links = planning::links_with(&plan.layout, switch);
    Ok(Size {
        switches: plan.layout.chart.ends.plant.switches,
        links,
    })
}

// A desk whose consoles have empty sets and no search. No refusal.
pub fn fresh_desk() -> Desk
    ensures { result ≡ fresh_desk }
{
    desk::fresh()
}

// A console replaces its set: refusals 19, 1 to 8, and 20 of the new set.
#[tactic(auto, unfolding(crate::specs::Calls::served))]
pub fn replace_set(
    desk: &mut Desk,
    listing: &[u8],
    console: u8,
    set: u64,
) -> Result<Console, Refusal>
    ensures result_value { answer_of result ≡ answer (serving desk.old console listing.now (new_set set)) }
    ensures desk_after { desk.new ≡ served desk.old console listing.now (new_set set) }
{
    let c = desk::console_of(desk, console);
    let size = size_of(console, listing, 0)?;
    desk::kept(desk, console, desk::replaced(c, size.switches, set))
}

// A console starts a search at a switch, which replaces its own: refusals 19, 1 to 8, 20 of its set, 11 and 21.
#[tactic(auto, unfolding(crate::specs::Calls::served))]
pub fn start_search(
    desk: &mut Desk,
    listing: &[u8],
    console: u8,
    switch: u8,
) -> Result<Console, Refusal>
    ensures result_value { answer_of result ≡ answer (serving desk.old console listing.now (start switch)) }
    ensures desk_after { desk.new ≡ served desk.old console listing.now (start switch) }
{
    let c = desk::console_of(desk, console);
    let size = size_of(console, listing, switch)?;
    desk::kept(desk, console, desk::started(c, size, switch))
}

// The outcome of a sending is given to a console's search: refusals 19, 1 to 8 and 20 of its set, then 15 if it has no search, else 11 and 21 of the search's switch, 14
// and 15.
#[tactic(auto, unfolding(crate::specs::Calls::served))]
pub fn give_outcome(
    desk: &mut Desk,
    listing: &[u8],
    console: u8,
    o: Outcome,
) -> Result<Console, Refusal>
    ensures result_value { answer_of result ≡ answer (serving desk.old console listing.now (outcome o)) }
    ensures desk_after { desk.new ≡ served desk.old console listing.now (outcome o) }
{
    let c = desk::console_of(desk, console);
    let at = desk::switch_of(c);
    let size = size_of(console, listing, at)?;
    desk::kept(desk, console, desk::told(c, size, o))
}
