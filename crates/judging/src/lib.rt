// The conditions of refusals 12 to 15 in a call that is given a listing: of a lent trail, of state bytes and of a search. Inner: the calls are those of docs/CALLS.md.
#![tactic(auto)]

ghost use Rattle.std.specs.Prelude.{◌≡◌};
ghost use Rattle.answers.specs.Checks.{answer};
ghost use Rattle.answers.specs.Results.{answer_of, Judges};
ghost use Rattle.judging.specs.Conditions.{trail_differs, states_short, search_unsound, lent_checks, round_checks, probe_wanted};

use answers::Refusal;
use planning::{Chart, Plan};
use search::Search;

// Refusal 12: does the lent trail begin with other hops than the trails of the plant, one after another, or has it another length?
pub fn differs(plan: &Plan, trail: &[u16]) -> bool
    ensures { result ≡ trail_differs plan.now.layout.chart.ends.plant trail.now }
{
    match planning::compare(plan, trail) {
        Some(hops) => trail.len() != hops,
        None => true,
    }
}

// Refusal 13: are there fewer state bytes than links, or than labels?
#[tactic(auto, unfolding(crate::specs::Conditions::states_short))]
pub fn too_few(states: &[u8], needed: u16) -> bool
    ensures { result ≡ states_short needed states.now }
{
    states.len() < usize::from(needed)
}

// Refusals 12 and 13 of a lent trail and state bytes.
pub fn judge_lent(plan: &Plan, trail: &[u16], states: &[u8]) -> Result<(), Refusal>
    ensures { Judges (lent_checks plan.now.layout.chart.ends.plant trail.now states.now) result }
{
    let other = answers::judge(differs(plan, trail), Refusal::TrailDiffers);
    let short = answers::judge(
        too_few(states, plan.layout.chart.ends.plant.count),
        Refusal::StatesShort,
    );
    other.and(short)
}

// Refusals 12, by the hops alone, and 13 of a lent round trail and a state byte for each label.
pub fn judge_round(chart: &Chart, round: &[u16], states: &[u8]) -> Result<(), Refusal>
    ensures { Judges (round_checks chart.now.ends.plant round.now states.now) result }
{
    match planning::compare_round(chart, round) {
        Some(_) => answers::judge(
            too_few(states, 2 * chart.ends.plant.count),
            Refusal::StatesShort,
        ),
        None => Err(Refusal::TrailDiffers),
    }
}

// Refusal 14, in a call with a listing, where a search is over so many links: those in service of the component of its switch.
#[tactic(auto, unfolding(crate::specs::Conditions::search_unsound))]
pub fn unsound(links: u16, search: Search) -> bool
    ensures { result ≡ search_unsound links search }
{
    !(search.sound() && search.sound_for(links))
}

// The probe that a search over so many links wants: refusals 14 and 15.
pub fn probe_wanted(links: u16, search: Search) -> Result<u16, Refusal>
    ensures { answer_of result ≡ answer (probe_wanted links search) }
{
    if unsound(links, search) {
        return Err(Refusal::SearchUnsound);
    }
    search.ask()
}
