// The writer of a plant's listing (document 01, "Listing bytes"). Inner: the calls are those of docs/CALLS.md.
#![tactic(auto)]

ghost use Rattle.std.specs.Prelude.{◌≡◌, [], ◌∷◌, ◌+◌, ◌^◌, ◌<◌, ◌≤◌, length, drop};
ghost use Rattle.std.specs.List.{list_all};
ghost use Rattle.std.proofs.lemmas.List.Edits.{sets};
ghost use Rattle.plant.specs.Links.{zero_link};
ghost use Rattle.answers.specs.Checks.{answer};
ghost use Rattle.answers.specs.Results.{answer_of};
ghost use Rattle.listing.specs.Listing.{link_values, links_of, links_bytes, encode};
ghost use Rattle.listing.specs.Writing.{is_zero, sound_links, sound_plant, writing, buffer_after};

use answers::{Refusal, judge, judge_room};
use encoder::{part_size, put_part};
use listing::{header_fields, judge_ends, link_fields, out_of_range};
use plant::{Link, Plant};

// The values of a plant's header.
fn header_values(p: &Plant) -> [u32; 3]
    ensures { result ≡ p.now.switches ∷ p.now.count ∷ p.now.start ∷ [] }
{
    [
        u32::from(p.switches),
        u32::from(p.count),
        u32::from(p.start),
    ]
}

// The values of a link: the last is 1 in service, 0 out of service.
fn link_values(l: &Link) -> [u32; 4]
    ensures { result ≡ link_values l.now }
{
    [
        u32::from(l.first),
        u32::from(l.second),
        u32::from(l.tag),
        u32::from(!l.out_of_service),
    ]
}

// Is every link place past the links zero?
#[tactic(auto, unfolding(listing::specs::Writing::is_zero))]
fn places_zero(p: &Plant) -> bool
    ensures { result ≡ list_all is_zero (drop p.now.count p.now.links) }
{
    let zero = Link::zero();
    p.links
        .iter()
        .skip(usize::from(p.count))
        .all(|l| *l == zero)
}

// The links that a plant value holds: a count past its places counts as all of them.
fn links_held(p: &Plant) -> &[Link]
    ensures links_are { result.now ≡ links_of p.now }
    ensures few { length result.now < 2 ^ 16 }
{
    let links = p.links.as_slice();
    &links[..usize::from(p.count).min(links.len())]
}

// Refusals 6 and 7, link by link.
fn judge_links(p: &Plant) -> Result<(), Refusal>
    ensures { answer_of result ≡ answer (sound_links p.now.switches (links_of p.now)) }
{
    for l in links_held(p) {
        judge_ends(u32::from(l.first), u32::from(l.second), p.switches)?;
    }
    Ok(())
}

// Refusals 5, 6 and 7 of any plant value.
fn judge_plant(p: &Plant) -> Result<(), Refusal>
    ensures { answer_of result ≡ answer (sound_plant p.now) }
{
    let outside = out_of_range(
        u32::from(p.switches),
        u32::from(p.count),
        u32::from(p.start),
    );
    judge(outside || !places_zero(p), Refusal::ValueOutOfRange)?;
    judge_links(p)
}

// The length of a plant's listing.
fn listing_size(p: &Plant) -> usize
    ensures { result ≡ length (encode p.now) }
{
    let mut size = part_size(&header_fields(), &header_values(p));
    let mut before = Link::zero();
    for l in links_held(p) {
        size += part_size(&link_fields(before), &link_values(l));
        before = *l;
    }
    size
}

// The links of a plant, from `from` on.
fn put_links(p: &Plant, buf: &mut [u8], from: usize)
    requires { from + length (links_bytes zero_link (links_of p.now)) ≤ length buf.old }
    ensures { buf.new ≡ sets buf.old from (links_bytes zero_link (links_of p.now)) }
{
    let mut before = Link::zero();
    let mut at = from;
    for l in links_held(p) {
        at = put_part(buf, at, &link_fields(before), &link_values(l));
        before = *l;
    }
}

// A plant's listing at the front of the buffer.
fn put_listing(p: &Plant, buf: &mut [u8])
    requires { length (encode p.now) ≤ length buf.old }
    ensures { buf.new ≡ sets buf.old 0 (encode p.now) }
{
    let from = put_part(buf, 0, &header_fields(), &header_values(p));
    put_links(p, buf, from);
}

// The listing of a plant into the front of the lent buffer: its length, or refusals 5, 6, 7 and 16, which leave the buffer as it was.
pub fn write(p: Plant, buffer: &mut [u8]) -> Result<usize, Refusal>
    ensures result_value { answer_of result ≡ answer (writing p buffer.old) }
    ensures buffer_now { buffer.new ≡ buffer_after p buffer.old }
{
    let sound = judge_plant(&p);
    let n = listing_size(&p);
    let room = judge_room(n, buffer.len(), Refusal::ListingBufferShort);
    let fit = sound.and(room);
    fit?;
    put_listing(&p, buffer);
    Ok(n)
}
