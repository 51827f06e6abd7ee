// The listing of a plant (document 01, "Listing bytes"): the fields of its parts, the conditions on its values, and its reader. Inner: the calls are those of docs/CALLS.md.
#![tactic(auto)]

ghost use Rattle.std.specs.Prelude.{◌≡◌, Bool, ℕ, drop};
ghost use Rattle.answers.specs.Checks.{answer};
ghost use Rattle.answers.specs.Results.{answer_as, answer_of};
ghost use Rattle.listing.specs.Listing.{field, value_out_of_range, header_fields, link_fields, link_of, sound_link, header, link, linked, ended};
ghost use Rattle.listing.specs.Steps.{plant_of, header_of, link_after, linked_of};

mod header;

use answers::{Refusal, judge};
use codec::{Field, Fields, read_part};
pub use header::Header;
use plant::{Link, Plant};

// The plant with its links, and the place after them.
#[derive(Clone, Copy, Debug, PartialEq, Eq)]
pub struct Linked {
    pub plant: Plant,
    pub next: usize,
}

// A field of so many bytes, and the value that its absence means.
fn field(width: usize, absent: u32) -> Field
    ensures { result ≡ field width absent }
{
    Field { width, absent }
}

// The fields of a header: switch count, link count, start.
pub fn header_fields() -> Fields<3>
    ensures { result.list ≡ header_fields }
{
    Fields {
        list: [field(1, 1), field(2, 0), field(1, 0)],
    }
}

// The fields of a link after the record `before`: first end, second end, tag, and of no bytes whether it is in service.
pub fn link_fields(before: Link) -> Fields<4>
    ensures { result.list ≡ link_fields before }
{
    Fields {
        list: [
            field(1, u32::from(before.first)),
            field(1, u32::from(before.second)),
            field(2, 0),
            field(0, 1),
        ],
    }
}

// Refusal 5's condition on the values of a header.
#[tactic(auto, unfolding(crate::specs::Listing::value_out_of_range))]
pub fn out_of_range(switches: u32, count: u32, start: u32) -> bool
    ensures { result ≡ value_out_of_range switches count start }
{
    !(1 <= switches
        && switches <= u32::from(Plant::MAX_SWITCHES)
        && count <= Plant::MAX_LINKS as u32
        && start < switches)
}

// The header that begins at `at`: refusals 1 to 5.
pub fn read_header(s: &[u8], at: usize) -> Result<Header, Refusal>
    ensures { answer_as (header_of s.now) result ≡ answer (header (drop at s.now)) }
{
    let part = read_part(s, at, &header_fields())?;
    let [switches, count, start] = part.values;
    judge(
        out_of_range(switches, count, start),
        Refusal::ValueOutOfRange,
    )?;
    // what is in range fits
    Ok(Header {
        switches: switches as u8,
        count: count as u16,
        start: start as u8,
        next: part.next,
    })
}

// Refusals 6 and 7 of a link with these ends.
#[tactic(auto, unfolding(crate::specs::Listing::sound_link, crate::specs::Listing::end_out_of_range, crate::specs::Listing::self_link))]
pub fn judge_ends(first: u32, second: u32, switches: u8) -> Result<(), Refusal>
    ensures { (tag : ℕ) (mark : Bool) → answer_of result ≡ answer (sound_link switches (link_of first second tag mark)) }
{
    let most = u32::from(switches);
    if most <= first || most <= second {
        return Err(Refusal::EndOutOfRange);
    }
    if first == second {
        return Err(Refusal::SelfLink);
    }
    Ok(())
}

// The link record that begins at `at`, after the record `before`, in a plant of so many switches, and the place after it; a service of 0 is the mark.
fn read_link(s: &[u8], at: usize, before: Link, switches: u8) -> Result<(Link, usize), Refusal>
    ensures { answer_as (link_after s.now) result ≡ answer (link switches before (drop at s.now)) }
{
    let part = read_part(s, at, &link_fields(before))?;
    let [first, second, tag, service] = part.values;
    judge_ends(first, second, switches)?;
    // ends below the switch count fit, and a tag has two bytes
    let l = Link {
        first: first as u8,
        second: second as u8,
        tag: tag as u16,
        out_of_service: service == 0,
    };
    Ok((l, part.next))
}

// The links from `at` on, after the header h: refusals 1 to 4, 6 and 7.
pub fn read_links(s: &[u8], at: usize, h: Header) -> Result<Linked, Refusal>
    ensures { answer_as (linked_of s.now) result ≡ answer (linked (plant_of h) (drop at s.now)) }
{
    let mut plant = Plant::with(h.switches, h.count, h.start);
    let mut before = Link::zero();
    let mut next = at;
    // place by place: what the loop has come to is said of the whole plant
    for i in 0..usize::from(h.count) {
        let (l, after) = read_link(s, next, before, h.switches)?;
        plant.links[i] = l;
        next = after;
        before = l;
    }
    Ok(Linked { plant, next })
}

// The end of the listing, at `at`, after the links l: refusal 8.
pub fn read_end(s: &[u8], at: usize, l: Linked) -> Result<Plant, Refusal>
    ensures { answer_of result ≡ answer (ended l.plant (drop at s.now)) }
{
    judge(at < s.len(), Refusal::BytesRemain)?;
    Ok(l.plant)
}
