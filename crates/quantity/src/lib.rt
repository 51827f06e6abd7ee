// The order quantity: how many rules to order, with a spare in percent. Inner: the calls are those of docs/CALLS.md.
#![tactic(auto)]

ghost use Rattle.std.specs.Prelude.{◌≡◌};
ghost use Rattle.answers.specs.Checks.{answer};
ghost use Rattle.answers.specs.Results.{answer_of};
ghost use Rattle.quantity.specs.Quantity.{order_quantity};

use answers::Refusal;

// The largest spare, in percent.
pub const MAX_SPARE: u8 = 100;

// So many rules: refusal 17.
#[tactic(auto, unfolding(crate::specs::Quantity::order_quantity, crate::specs::Quantity::spare_above))]
pub fn order_quantity(rules: u16, spare: u8) -> Result<u32, Refusal>
    ensures { answer_of result ≡ answer (order_quantity rules spare) }
{
    if MAX_SPARE < spare {
        return Err(Refusal::SpareTooLarge);
    }
    let a = u32::from(rules);
    let p = u32::from(spare);
    Ok(a + (a * p).div_ceil(100))
}
