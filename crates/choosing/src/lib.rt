// Which of two lent trails has fewer hops, and its hops as a part of it (document 02, order 6). Inner: the calls are those of docs/CALLS.md.
#![tactic(auto)]

ghost use Rattle.std.specs.Prelude.{◌≡◌};
ghost use Rattle.choosing.specs.Choice.{choice_of, hops_in};

// The trail that has fewer hops, document 01's or the round trail: where they begin in the lent one, and how many they are.
#[derive(Clone, Copy, Debug, PartialEq, Eq)]
pub enum Choice {
    Trail(usize, usize),
    Round(usize, usize),
}

// Of a trail that begins at place i of a lent one and a round trail that begins at place j of another, with so many hops, the one with fewer; the trail if they have as many.
#[tactic(auto, unfolding(crate::specs::Choice::choice_of))]
pub fn fewer(i: usize, trail: usize, j: usize, round: usize) -> Choice
    ensures { result ≡ choice_of i trail j round }
{
    if round < trail {
        Choice::Round(j, round)
    } else {
        Choice::Trail(i, trail)
    }
}

// The hops of the lent trail that was chosen, as a part of it: as much as is there.
pub fn hops_of<'a>(trail: &'a [u16], round: &'a [u16], choice: Choice) -> &'a [u16]
    ensures { result.now ≡ hops_in trail.now round.now choice }
{
    match choice {
        Choice::Trail(k, n) => order::part(trail, k, n),
        Choice::Round(k, n) => order::part(round, k, n),
    }
}
