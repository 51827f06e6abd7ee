// The forwarding table (document 01's rule page), by value. Inner: the calls are those of docs/CALLS.md.
#![tactic(auto)]

ghost use Rattle.std.specs.Prelude.{◌≡◌, [], ◌*◌, ◌≤◌};
ghost use Rattle.lists.specs.Arrays.{flag, at};
ghost use Rattle.lists.specs.Count.{count};
ghost use Rattle.limits.specs.Limits.{max_links, max_rules};
ghost use Rattle.table.specs.Rules.{table_with, table_in};

use plant::Plant;

#[derive(Clone, Copy, Debug, PartialEq, Eq)]
pub struct Rule {
    pub from: u8,
    pub label: u16,
    pub to: u8,
}

// `count` places of `rules` are in use; the others are zero. The array has a place for each rule of any plant, since nothing is kept on a heap.
#[derive(Clone, Copy, Debug, PartialEq, Eq)]
pub struct Table {
    pub count: u16,
    pub rules: [Rule; Plant::MAX_RULES],
}

impl Table {
    pub fn empty() -> Table
        ensures { result ≡ table_with [] }
    {
        let zero = Rule {
            from: 0,
            label: 0,
            to: 0,
        };
        let rules = [zero; Plant::MAX_RULES];
        Table { count: 0, rules }
    }
}

// One rule for each arc that is flagged as in use, by rising label: of the labels below n, with the tails and the heads of their arcs.
pub fn table_of(
    tails: &[u8; Plant::LABELS],
    heads: &[u8; Plant::LABELS],
    used: &[bool; Plant::LABELS],
    n: u16,
) -> Table
    requires n_bound { n ≤ 2 * max_links }
    requires used_bound { count n (flag used.now) ≤ max_rules }
    ensures { result ≡ table_in n (at tails.now) (at heads.now) (flag used.now) }
{
    let mut t = Table::empty();
    for label in 0..n {
        let a = usize::from(label);
        let in_use = used[a];
        if in_use {
            t.rules[usize::from(t.count)] = Rule {
                from: tails[a],
                label,
                to: heads[a],
            };
            t.count += 1;
        }
    }
    t
}

// The place of the switch that sends by a rule.
pub fn sender_of(r: Rule) -> usize
    ensures { result ≡ r.from }
{
    usize::from(r.from)
}
