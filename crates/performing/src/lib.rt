// A list of calls to a search, each a byte, after a new search. Inner: the calls are those of docs/CALLS.md.
#![tactic(auto)]

ghost use Rattle.std.specs.Prelude.{◌≡◌, ◌≤◌, ◌<◌, ◌+◌};
ghost use Rattle.search.specs.Calls.{step, perform, begun};
ghost use Rattle.search.specs.Answers.{outcome_in, call_in, calls_in};

use search::{Outcome, Progress, Search};

// An outcome as a byte: 1 is returned, any other is lost. No byte is refused, so an enum of bytes would tell no more.
fn outcome_in(b: u8) -> Outcome
    ensures { result ≡ outcome_in b }
{
    if b == 1 {
        Outcome::Returned
    } else {
        Outcome::Lost
    }
}

// One call, as a byte: 0 asks for a probe, 1 gives returned, any other gives lost.
#[tactic(auto, unfolding(search::specs::Answers::call_in))]
fn step(p: Progress, b: u8) -> Progress
    requires probes_bound { p.probes < usize.MAX }
    requires packets_bound { p.packets < usize.MAX }
    ensures value { result ≡ step p (call_in b) }
    ensures probes_after { result.probes ≤ p.probes + 1 }
    ensures packets_after { result.packets ≤ p.packets + 1 }
{
    if b == 0 {
        // The answer is for the caller alone: the state stays as it is.
        return p;
    }
    let o = outcome_in(b);
    match p.state.give(o) {
        Ok(state) => Progress {
            state,
            probes: p.probes + usize::from(p.state.settles(o)),
            packets: p.packets + 1,
        },
        Err(_) => p,
    }
}

// Performs a list of calls, each a byte, after a new search over so many links.
#[tactic(auto, unfolding(search::specs::Calls::begun))]
pub fn perform(links: u16, calls: &[u8]) -> Progress
    ensures { result ≡ perform (begun links) (calls_in calls.now) }
{
    let mut p = Progress {
        state: Search::new(links),
        probes: 0,
        packets: 0,
    };
    for &b in calls {
        p = step(p, b);
    }
    p
}
