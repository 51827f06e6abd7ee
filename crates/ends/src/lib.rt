// The links at each switch of a plant (document 02, order 3). Inner: the calls are those of docs/CALLS.md.
#![tactic(auto)]

ghost use Rattle.std.specs.Prelude.{◌≡◌, map};
ghost use Rattle.lists.specs.Numbers.{range};
ghost use Rattle.limits.specs.Limits.{max_switches};
ghost use Rattle.limits.specs.Sound.{Sound};
ghost use Rattle.walks.specs.Graph.{links_at};

use plant::{Plant, in_service};

// How many links are at each switch, at the place of the switch: one in service counts at each of its ends.
pub fn links_at_each(p: &Plant) -> [u16; Plant::PLACES]
    requires { Sound p.now }
    ensures { result ≡ map (links_at p.now) (range 0 max_switches) }
{
    let mut counts = [0; Plant::PLACES];
    for link in &p.links[..usize::from(p.count)] {
        if in_service(*link) {
            counts[usize::from(link.first)] += 1;
            counts[usize::from(link.second)] += 1;
        }
    }
    counts
}
