// The rules of a forwarding table by sending switch (document 02, order 2). Inner: the calls are those of docs/CALLS.md.
#![tactic(auto)]

ghost use Rattle.std.specs.Prelude.{◌≡◌};
ghost use Rattle.senders.specs.Senders.{none_sent, by_switch};
ghost use Rattle.senders.specs.Placed.{Placed};

use plant::Plant;
use table::{Table, sender_of};

// How many rules each switch sends by, at the place of the switch, and their total over switches.
#[derive(Clone, Copy, Debug, PartialEq, Eq)]
pub struct BySwitch {
    pub counts: [u16; Plant::PLACES],
    pub total: u16,
}

impl BySwitch {
    // No switch sends by a rule.
    pub fn none() -> BySwitch
        ensures { result ≡ none_sent }
    {
        BySwitch {
            counts: [0; Plant::PLACES],
            total: 0,
        }
    }
}

// The rules of a table by sending switch, and their total over switches.
pub fn by_switch(t: Table) -> BySwitch
    requires { Placed t }
    ensures { result ≡ by_switch t }
{
    let mut b = BySwitch::none();
    for rule in &t.rules[..usize::from(t.count)] {
        b.counts[sender_of(*rule)] += 1;
    }
    // over switches, onto the total of `none`
    b.total += b.counts.iter().sum::<u16>();
    b
}
