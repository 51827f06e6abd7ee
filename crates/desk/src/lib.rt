// The desk of four consoles (document 02, orders 8 and 9): a console's set and search, what each call does to them for a listing of so many switches, where the component of the
// search's switch has so many links in service, and the console's place on the desk. Inner: the calls are those of docs/CALLS.md.
#![tactic(auto)]

ghost use Rattle.std.specs.Prelude.{◌≡◌, [], ◌∷◌, min};
ghost use Rattle.answers.specs.Checks.{answer};
ghost use Rattle.answers.specs.Results.{answer_of, Judges};
ghost use Rattle.desk.specs.Console.{has, set_out_of_range, switch_checks, start_checks, console_with, search_from, held_at, replacing, starting, telling};
ghost use Rattle.desk.specs.Inner.{giving_to, feeding};
ghost use Rattle.desk.specs.Desk.{console_of, with_console, desk_after, fresh_desk};

use answers::Refusal;
use plant::Plant;
use search::{Outcome, Search};

// A search with its injection switch.
#[derive(Clone, Copy, Debug, PartialEq, Eq)]
pub struct Held {
    pub switch: u8,
    pub search: Search,
}

// A console: its set of switches, bit x for switch x, and at most one search.
#[derive(Clone, Copy, Debug, PartialEq, Eq)]
pub struct Console {
    pub set: u64,
    pub search: Option<Held>,
}

// The consoles, by their numbers from 0.
#[derive(Clone, Copy, Debug, PartialEq, Eq)]
pub struct Desk {
    pub consoles: [Console; Desk::CONSOLES],
}

impl Desk {
    // How many consoles a desk has.
    pub const CONSOLES: usize = 4;
}

// What a call goes by of a listing: the switches of its plant, and the links in service of the component of a switch.
#[derive(Clone, Copy, Debug, PartialEq, Eq)]
pub struct Size {
    pub switches: u8,
    pub links: u16,
}

// ---- sets of switches

// Is switch x in the set?
fn has(set: u64, x: u8) -> bool
    ensures { result ≡ has set x }
{
    x < Plant::MAX_SWITCHES && (set >> x) % 2 == 1
}

// Refusal 20: has the set a bit at or above so many switches? A set has as many bits as a plant can have switches.
fn out_of_range(set: u64, switches: u8) -> bool
    ensures { result ≡ set_out_of_range switches set }
{
    let all = Plant::MAX_SWITCHES <= switches;
    !all && (set >> switches) != 0
}

// Refusal 20 of a set.
fn judge_set(set: u64, switches: u8) -> Result<(), Refusal>
    ensures { Judges ((20, set_out_of_range switches set) ∷ []) result }
{
    answers::judge(out_of_range(set, switches), Refusal::SetOutOfRange)
}

// Refusals 11 and 21 of an injection switch.
fn judge_switch(set: u64, switches: u8, x: u8) -> Result<(), Refusal>
    ensures { Judges (switch_checks switches set x) result }
{
    let range = answers::judge(switches <= x, Refusal::SwitchOutOfRange);
    let member = answers::judge(!has(set, x), Refusal::SwitchOutsideSet);
    range.and(member)
}

// Refusals 20, 11 and 21 of a set and an injection switch.
fn judge_start(set: u64, switches: u8, x: u8) -> Result<(), Refusal>
    ensures { Judges (start_checks switches set x) result }
{
    judge_set(set, switches).and(judge_switch(set, switches, x))
}

// ---- what a call does to a console

// Its set is replaced, and its search stays: refusal 20 of the new set.
#[tactic(auto, unfolding(crate::specs::Console::replacing))]
pub fn replaced(c: Console, switches: u8, set: u64) -> Result<Console, Refusal>
    ensures { answer_of result ≡ answer (replacing switches set c) }
{
    judge_set(set, switches)?;
    Ok(Console { set, ..c })
}

// The console with a search from switch x in place of its own.
fn searching(c: Console, x: u8, q: Search) -> Console
    ensures { result ≡ console_with c.set (search_from x q) }
{
    let held = Held {
        switch: x,
        search: q,
    };
    Console {
        search: Some(held),
        ..c
    }
}

// A new search from a switch, over the links in service of the switch's component, replaces its own: refusals 20, 11 and 21.
#[tactic(auto, unfolding(crate::specs::Console::starting))]
pub fn started(c: Console, size: Size, x: u8) -> Result<Console, Refusal>
    ensures { answer_of result ≡ answer (starting size.switches size.links x c) }
{
    judge_start(c.set, size.switches, x)?;
    Ok(searching(c, x, Search::new(size.links)))
}

// Refusal 14 of a search over so many links in service of its switch's component, then the call that gives an outcome to it, with refusal 15.
#[tactic(auto, unfolding(crate::specs::Inner::giving_to, search::specs::Search::give, judging::specs::Conditions::search_unsound))]
fn give_to(q: Search, links: u16, o: Outcome) -> Result<Search, Refusal>
    ensures { answer_of result ≡ answer (giving_to links q o) }
{
    if !q.sound_for(links) {
        return Err(Refusal::SearchUnsound);
    }
    q.give(o)
}

// An outcome is given to the search that it holds: refusals 11, 21, 14 and 15.
#[tactic(auto, unfolding(crate::specs::Inner::feeding, crate::specs::Inner::giving_to))]
fn fed(c: Console, size: Size, held: Held, o: Outcome) -> Result<Console, Refusal>
    ensures { answer_of result ≡ answer (feeding size.switches size.links o c.set held.switch held.search) }
{
    judge_switch(c.set, size.switches, held.switch)?;
    let next = give_to(held.search, size.links, o)?;
    Ok(searching(c, held.switch, next))
}

// The switch that its search is at. Where it has none, 0, as in the definition `held_at`, which promises cite.
pub fn switch_of(c: Console) -> u8
    ensures { result ≡ held_at c.search }
{
    match c.search {
        Some(held) => held.switch,
        None => 0,
    }
}

// An outcome is given to its search: refusal 20, then 15 if it has none, else 11, 21, 14 and 15.
#[tactic(auto, unfolding(crate::specs::Console::telling, crate::specs::Inner::feeding))]
pub fn told(c: Console, size: Size, o: Outcome) -> Result<Console, Refusal>
    ensures { answer_of result ≡ answer (telling size.switches size.links o c) }
{
    judge_set(c.set, size.switches)?;
    let held = c.search.ok_or(Refusal::SearchEnded)?;
    fed(c, size, held, o)
}

// ---- the desk

// A desk whose consoles have empty sets and no search.
#[tactic(auto, unfolding(crate::specs::Desk::fresh_desk))]
pub fn fresh() -> Desk
    ensures { result ≡ fresh_desk }
{
    let c = Console {
        set: 0,
        search: None,
    };
    Desk {
        consoles: [c; Desk::CONSOLES],
    }
}

// The place of console k: the last one past the number of consoles.
fn place(k: u8) -> usize
    ensures { result ≡ min k 3 }
{
    usize::from(k).min(Desk::CONSOLES - 1)
}

// Console k.
#[tactic(auto, unfolding(crate::specs::Desk::console_of))]
pub fn console_of(d: &Desk, k: u8) -> Console
    ensures { result ≡ console_of d.now k }
{
    d.consoles[place(k)]
}

// What a call of console k came to, once its console is laid down on the desk, beside the other three as they are. A refusal leaves the desk as it is.
#[tactic(auto, using(crate::proofs::Consoles::put_is))]
pub fn kept(d: &mut Desk, k: u8, c: Result<Console, Refusal>) -> Result<Console, Refusal>
    ensures result_value { result ≡ c }
    ensures desk_after { d.new ≡ desk_after d.old k (answer_of c) }
{
    let c = c?;
    d.consoles[place(k)] = c;
    Ok(c)
}
