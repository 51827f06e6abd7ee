// Calls 30 to 32 of the program `cases`: a desk of four consoles. Each is given a listing, a desk and the number of a console, and then an argument of its own. Its main
// file has the table of cases.
#![tactic(auto)]

ghost use Rattle.std.specs.Prelude.{◌≡◌};
ghost use Rattle.answers.specs.Checks.{answer};
ghost use Rattle.answers.specs.Results.{answer_of};
ghost use Rattle.desk.specs.Desk.{desk_after};
ghost use Rattle.consoles.specs.Calls.{new_set, start, outcome, serving};
ghost use Rattle.streams.specs.Streams.{Grows};

use answers::Refusal;
use caseform::input::Input;
use caseform::{checksum, show};
use desk::{Console, Desk, Held};
use search::{Outcome, Search};
use std::io;
use std::io::Write;

// The numbers that a console is printed as.
const NUMBERS: u64 = 14;

// ---- the calls, each lent the caller's desk

#[tactic(auto, unfolding(consoles::specs::Calls::served))]
fn replace_set(desk: &mut Desk, listing: &[u8], console: u8, set: u64) -> Result<Console, Refusal>
    ensures result_value { answer_of result ≡ answer (serving desk.old console listing.now (new_set set)) }
    ensures desk_after { desk.new ≡ desk_after desk.old console (answer (serving desk.old console listing.now (new_set set))) }
{
    consoles::replace_set(desk, listing, console, set)
}

#[tactic(auto, unfolding(consoles::specs::Calls::served))]
fn start_search(
    desk: &mut Desk,
    listing: &[u8],
    console: u8,
    switch: u8,
) -> Result<Console, Refusal>
    ensures result_value { answer_of result ≡ answer (serving desk.old console listing.now (start switch)) }
    ensures desk_after { desk.new ≡ desk_after desk.old console (answer (serving desk.old console listing.now (start switch))) }
{
    consoles::start_search(desk, listing, console, switch)
}

#[tactic(auto, unfolding(consoles::specs::Calls::served))]
fn give_outcome(
    desk: &mut Desk,
    listing: &[u8],
    console: u8,
    o: Outcome,
) -> Result<Console, Refusal>
    ensures result_value { answer_of result ≡ answer (serving desk.old console listing.now (outcome o)) }
    ensures desk_after { desk.new ≡ desk_after desk.old console (answer (serving desk.old console listing.now (outcome o))) }
{
    consoles::give_outcome(desk, listing, console, o)
}

// ---- a desk in the input

// A set, and a search with its switch, or none if the byte before them is 0.
fn console(input: &mut Input) -> Console {
    let set = input.set();
    let given = input.byte() != 0;
    let held = Held {
        switch: input.byte(),
        search: input.search(),
    };
    Console {
        set,
        search: given.then_some(held),
    }
}

fn desk(input: &mut Input) -> Desk {
    let mut desk = consoles::fresh_desk();
    for c in &mut desk.consoles {
        *c = console(input);
    }
    desk
}

// ---- a desk in the output

// The kind of a search, two numbers, and the sendings lost so far.
fn numbers_of(q: Search) -> [u16; 4] {
    match q {
        Search::Checking(count, lost) => [0, count, 0, u16::from(lost)],
        Search::Halving(low, high, lost) => [1, low, high, u16::from(lost)],
        Search::AllUp => [2, 0, 0, 0],
        Search::Down(place) => [3, place, 0, 0],
    }
}

// With 1, the switch and the search; without a search with as many zeros.
fn with_held(h: u32, held: Option<Held>) -> u32 {
    match held {
        None => checksum::with_all(h, &[0u16; 6]),
        Some(held) => {
            let switch = checksum::with_all(h, &[1, held.switch]);
            checksum::with_all(switch, &numbers_of(held.search))
        }
    }
}

// With the eight bytes of the set, low byte first, and the search.
fn with_console(h: u32, c: Console) -> u32 {
    with_held(checksum::with_all(h, &c.set.to_le_bytes()), c.search)
}

fn of_desk(d: &Desk) -> u32 {
    d.consoles.iter().fold(0, |h, c| with_console(h, *c))
}

fn show_console<W: Write>(out: &mut W, c: Console) -> io::Result<()>
    ensures { Grows (W.contents out.old) (W.contents out.new) }
{
    show::number(out, c.set)?;
    match c.search {
        None => show::word(out, b" none"),
        Some(held) => {
            show::word(out, b" from")?;
            show::spaced(out, &[u64::from(held.switch)])?;
            show::word(out, b" ")?;
            show::search(out, held.search)
        }
    }
}

// Writes the answer of one of these calls to the arguments that are next in the input, and the desk after the call. What was written before stays, also after an error. A
// byte that is no call ends the input.
pub fn answer<W: Write>(out: &mut W, call: u8, input: &mut Input) -> io::Result<()>
    ensures { Grows (W.contents out.old) (W.contents out.new) }
{
    let listing = input.string();
    let mut desk = desk(input);
    let console = input.byte();
    let answer = match call {
        30 => replace_set(&mut desk, listing, console, input.set()),
        31 => start_search(&mut desk, listing, console, input.byte()),
        32 => give_outcome(&mut desk, listing, console, input.outcome()),
        _ => {
            input.end();
            return Ok(());
        }
    };
    show::answer(out, answer, show_console)?;
    show::word(out, b" ")?;
    show::sized(out, Desk::CONSOLES as u64 * NUMBERS, of_desk(&desk))
}
