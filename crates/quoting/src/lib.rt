// The buying page of a plan (document 02, order 3). Inner: the calls are those of docs/CALLS.md.
#![tactic(auto)]

ghost use Rattle.std.specs.Prelude.{◌≡◌};
ghost use Rattle.answers.specs.Checks.{answer};
ghost use Rattle.answers.specs.Results.{answer_of};
ghost use Rattle.limits.specs.Sound.{Sound};
ghost use Rattle.quoting.specs.Quotes.{sheet_with, pricing, quoting};
ghost use Rattle.quoting.specs.Answers.{quoted_out};

use answers::{Refusal, judge_room};
use planning::Chart;
use plant::Plant;
use senders::BySwitch;
use sheet::{Quote, Sheet};

// The counts of a plant with these rules, for an order quantity.
fn sheet_of(p: &Plant, rules: BySwitch, quantity: u32) -> Sheet
    requires { Sound p.now }
    ensures { result ≡ sheet_with p.now rules quantity }
{
    let links = ends::links_at_each(p);
    let counts = rules.counts;
    Sheet {
        switches: p.switches,
        rules: counts,
        links,
        total: rules.total,
        quantity,
    }
}

// The counts of a plant with a spare in percent: refusal 17.
pub fn price(x: &Chart, spare: u8) -> Result<Sheet, Refusal>
    ensures { answer_of result ≡ answer (pricing x.now.ends.plant spare) }
{
    let table = planning::table_of(x);
    let rules = senders::by_switch(table);
    let n = quantity::order_quantity(rules.total, spare)?;
    Ok(sheet_of(&x.ends.plant, rules, n))
}

// The buying page of a plant into the front of the lent buffer, and its length: refusals 17 and 18.
pub fn put_page(x: &Chart, spare: u8, buffer: &mut [u8]) -> Result<usize, Refusal>
    ensures result_value { answer_of result ≡ answer (quoting x.now.ends.plant spare buffer.old) }
    ensures buffer_now { buffer.new ≡ quoted_out x.now.ends.plant spare buffer.old }
{
    let counts = price(x, spare)?;
    let n = sheet::page_length(x.ends.plant.switches);
    judge_room(n, buffer.len(), Refusal::BuyingPageUnfit)?;
    sheet::put_page(&Quote { sheet: counts }, buffer);
    Ok(n)
}
