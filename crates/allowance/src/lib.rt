// The allowance of a search: the least k with 2^k at least the number of links, worked out. Inner: the calls are those of docs/CALLS.md.
#![tactic(auto)]

ghost use Rattle.std.specs.Prelude.{◌≡◌};
ghost use Rattle.allowance.specs.Allowance.{allowance};

// The loop reads as the definition does: it ends at the first k that is enough.
pub fn allowance(links: u16) -> u8
    ensures { result ≡ allowance links }
{
    let n = links as usize;
    let mut k: u8 = 0;
    while (1usize << k) < n {
        k += 1;
    }
    k
}
