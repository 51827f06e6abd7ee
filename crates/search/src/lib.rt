// The search for the first broken link: its state, the call for a probe and the call that gives an outcome. Inner: the calls are those of docs/CALLS.md.
#![tactic(auto)]

ghost use Rattle.std.specs.Prelude.{◌≡◌, true};
ghost use Rattle.answers.specs.Checks.{check, answer};
ghost use Rattle.answers.specs.Results.{answer_of, answer_as};
ghost use Rattle.search.specs.Search.{new_search, counts, halves, short, sound, sound_for, says, ended, wanted, lost_so_far, settles, narrowed, settled, once_more, next, call_checks, ask, give};

use answers::Refusal;
use plant::Plant;

// How often a probe is sent at most: it counts as lost when so many sendings in a row were lost.
const TRIES: usize = 3;

// Checking a number of links, halving the places from low to high, all links are up, or the link at a place is down. Places count from 1 in the order of links. The
// last number of Checking and Halving is how many sendings of the probe wanted were lost so far.
#[derive(Clone, Copy, Debug, PartialEq, Eq)]
pub enum Search {
    Checking(u16, u8),
    Halving(u16, u16, u8),
    AllUp,
    Down(u16),
}

// What a state says: nothing yet, that all links are up, or that the link at a place is down.
#[derive(Clone, Copy, Debug, PartialEq, Eq)]
pub enum Said {
    Open,
    AllUp,
    Down(u16),
}

// The outcome of a sending of a probe, as it is given to a search. Which one a run has is read out of it by `packet::outcome_of`.
#[derive(Clone, Copy, Debug, PartialEq, Eq)]
pub enum Outcome {
    Returned,
    Lost,
}

// The state that the last accepted outcome returned; the number of probes: how many accepted outcomes settled theirs; the number of packets: how many outcomes were
// accepted.
#[derive(Clone, Copy, Debug, PartialEq, Eq)]
pub struct Progress {
    pub state: Search,
    pub probes: usize,
    pub packets: usize,
}

// A search that was judged: refusal 14 does not meet it.
#[derive(Clone, Copy)]
struct Judged {
    search: Search,
    ghost is_sound: { sound search ≡ true },
}

impl Search {
    // A new search over so many links.
    #[tactic(auto, unfolding(crate::specs::Search::new_search))]
    pub fn new(links: u16) -> Search
        ensures { result ≡ new_search links }
    {
        if links == 0 {
            Search::AllUp
        } else {
            Search::Checking(links, 0)
        }
    }

    // Not refusal 14.
    pub fn sound(self) -> bool
        ensures { result ≡ sound self }
    {
        match self {
            Search::Checking(count, lost) => counts(count) && short(usize::from(lost)),
            Search::Halving(low, high, lost) => halves(low, high) && short(usize::from(lost)),
            Search::AllUp => true,
            Search::Down(place) => counts(place),
        }
    }

    // Not the part of refusal 14 that is tried in a call with a listing of so many links.
    pub fn sound_for(self, links: u16) -> bool
        ensures { result ≡ sound_for links self }
    {
        match self {
            Search::Checking(count, _) => count == links,
            Search::Halving(_, high, _) => high <= links,
            Search::AllUp => true,
            Search::Down(place) => place <= links,
        }
    }

    // What it says.
    pub fn says(self) -> Said
        ensures { result ≡ says self }
    {
        match self {
            Search::Checking(..) | Search::Halving(..) => Said::Open,
            Search::AllUp => Said::AllUp,
            Search::Down(place) => Said::Down(place),
        }
    }

    // Refusal 15.
    pub fn ended(self) -> bool
        ensures { result ≡ ended self }
    {
        self.says() != Said::Open
    }

    // The sendings lost so far of the probe that is wanted.
    fn lost_so_far(self) -> u8
        ensures { result ≡ lost_so_far self }
    {
        match self {
            Search::Checking(_, lost) | Search::Halving(_, _, lost) => lost,
            Search::AllUp | Search::Down(_) => 0,
        }
    }

    // Does an outcome settle the probe that is wanted, so that it counts? One that returns does, and a loss if it is the third in a row.
    pub fn settles(self, o: Outcome) -> bool
        ensures { result ≡ settles self o }
    {
        match o {
            Outcome::Returned => true,
            Outcome::Lost => !short(usize::from(self.lost_so_far()) + 1),
        }
    }

    // Refusals 14 and 15 of a call to a search.
    fn judge(self) -> Result<Judged, Refusal>
        ensures { answer_as (λ j. j.search) result ≡ answer (check (call_checks self) self) }
    {
        if !self.sound() {
            return Err(Refusal::SearchUnsound);
        }
        if self.ended() {
            return Err(Refusal::SearchEnded);
        }
        Ok(Judged { search: self })
    }

    // The call for a probe.
    pub fn ask(self) -> Result<u16, Refusal>
        ensures { answer_of result ≡ answer (ask self) }
    {
        Ok(self.judge()?.wanted())
    }

    // The call that gives an outcome.
    pub fn give(self, o: Outcome) -> Result<Search, Refusal>
        ensures { answer_of result ≡ answer (give self o) }
    {
        Ok(self.judge()?.next(o))
    }
}

impl Judged {
    // The probe to send. A search that has ended wants none, and 0 stands for that, as in the definition `wanted`, which promises cite.
    fn wanted(self) -> u16
        ensures { result ≡ wanted self.search }
    {
        match self.search {
            Search::Checking(count, _) => count,
            Search::Halving(low, high, _) => (low + high) / 2,
            Search::AllUp | Search::Down(_) => 0,
        }
    }

    // The state after the probe that is wanted counts as returned or lost; no sending of the next one is lost.
    fn settled(self, o: Outcome) -> Search
        ensures { result ≡ settled self.search o }
    {
        let m = self.wanted();
        match self.search {
            Search::Checking(count, _) => match o {
                Outcome::Returned => Search::AllUp,
                Outcome::Lost => narrowed(1, count, 0),
            },
            Search::Halving(low, high, _) => match o {
                Outcome::Returned => narrowed(m + 1, high, 0),
                Outcome::Lost => narrowed(low, m, 0),
            },
            Search::AllUp | Search::Down(_) => self.search,
        }
    }

    // The state after one more of its sendings was lost, and the probe does not count yet.
    fn once_more(self) -> Search
        ensures { result ≡ once_more self.search }
    {
        match self.search {
            Search::Checking(count, lost) => Search::Checking(count, lost + 1),
            Search::Halving(low, high, lost) => Search::Halving(low, high, lost + 1),
            Search::AllUp | Search::Down(_) => self.search,
        }
    }

    // The state after a sending of the probe that is wanted had an outcome.
    fn next(self, o: Outcome) -> Search
        ensures { result ≡ next self.search o }
    {
        if self.search.settles(o) {
            self.settled(o)
        } else {
            self.once_more()
        }
    }
}

// Can it be a number of links, or a place in their order?
fn counts(n: u16) -> bool
    ensures { result ≡ counts n }
{
    0 < n && usize::from(n) <= Plant::MAX_LINKS
}

// Can they be the places that are left to halve?
fn halves(low: u16, high: u16) -> bool
    ensures { result ≡ halves low high }
{
    0 < low && (low < high && usize::from(high) <= Plant::MAX_LINKS)
}

// Are so many sendings lost fewer than settle a probe?
fn short(lost: usize) -> bool
    ensures { result ≡ short lost }
{
    lost < TRIES
}

// The first broken link is at one of the places low .. high, with so many sendings lost of the next probe.
fn narrowed(low: u16, high: u16, lost: u8) -> Search
    ensures { result ≡ narrowed low high lost }
{
    if low == high {
        Search::Down(low)
    } else {
        Search::Halving(low, high, lost)
    }
}
