// Calls 13 to 17 and 20: the search, its allowance and the order quantity.
ghost use Rattle.streams.specs.Streams.{Grows};

use caseform::input::Input;
use caseform::show;
use search::Progress;
use std::io;
use std::io::Write;

fn show_progress<W: Write>(out: &mut W, p: Progress) -> io::Result<()>
    ensures { Grows (W.contents out.old) (W.contents out.new) }
{
    show::search(out, p.state)?;
    show::spaced(out, &[p.probes as u64, p.packets as u64])
}

// Writes the answer of one of these calls to the arguments that are next in the input. What was written before stays, also after an error. A byte that is no call ends the
// input.
pub fn answer<W: Write>(out: &mut W, call: u8, input: &mut Input) -> io::Result<()>
    ensures { Grows (W.contents out.old) (W.contents out.new) }
{
    match call {
        13 => show::answer(
            out,
            probing::new_search(input.string(), input.byte()),
            show::search,
        ),
        14 => show::answer(out, probing::ask(input.search()), |out, m| {
            show::number(out, u64::from(m))
        }),
        15 => show::answer(
            out,
            probing::give(input.search(), input.outcome()),
            show::search,
        ),
        16 => show::answer(
            out,
            probing::perform(input.string(), input.byte(), input.string()),
            show_progress,
        ),
        17 => show::answer(
            out,
            planner::order_quantity(input.number(), input.byte()),
            |out, n| show::number(out, u64::from(n)),
        ),
        20 => show::number(out, u64::from(planner::allowance(input.number()))),
        _ => {
            input.end();
            Ok(())
        }
    }
}
