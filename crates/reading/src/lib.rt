// A reading carries the lent listing and how far it has come (document 01, "Listing bytes"). Each function over it is thin:
// it takes the reading apart, or makes one, and leaves the work to the crate `listing`. Inner: the call is `planner::read`.
#![tactic(auto)]

ghost use Rattle.std.specs.Prelude.{◌≡◌};
ghost use Rattle.answers.specs.Checks.{answer};
ghost use Rattle.answers.specs.Results.{answer_as, answer_of};
ghost use Rattle.listing.specs.Listing.{header, linked, ended, reading};
ghost use Rattle.listing.specs.Steps.{plant_of, header_of, linked_of};
ghost use Rattle.reading.specs.Carried.{reading_at, bytes, left};

use answers::Refusal;
use listing::{Header, Linked};
use plant::Plant;

#[derive(Clone, Copy)]
struct Reading<'a> {
    listing: &'a [u8],
    at: usize,
}

impl<'a> Reading<'a> {
    // A reading at the front of a listing.
    fn begin(listing: &'a [u8]) -> Reading<'a>
        ensures { result ≡ reading_at listing.entry 0 }
    {
        Reading { listing, at: 0 }
    }

    // The same listing, at another place.
    fn moved(self, at: usize) -> Reading<'a>
        ensures { result ≡ reading_at self.entry.listing at }
    {
        Reading {
            listing: self.listing,
            at,
        }
    }

    // The header that comes next, or why there is none: refusals 1 to 5.
    fn header(self) -> Result<Header, Refusal>
        ensures { answer_as (header_of (bytes self.entry)) result ≡ answer (header (left self.entry)) }
    {
        listing::read_header(self.listing, self.at)
    }

    // The links that come next, after the header h, or why there are none: refusals 1 to 4, 6 and 7.
    fn links(self, h: Header) -> Result<Linked, Refusal>
        ensures { answer_as (linked_of (bytes self.entry)) result ≡ answer (linked (plant_of h) (left self.entry)) }
    {
        listing::read_links(self.listing, self.at, h)
    }

    // The end of the listing, after the links l, or refusal 8 where bytes remain.
    fn end(self, l: Linked) -> Result<Plant, Refusal>
        ensures { answer_of result ≡ answer (ended l.plant (left self.entry)) }
    {
        listing::read_end(self.listing, self.at, l)
    }
}

// The plant of a listing, or why there is none: refusals 1 to 8.
pub fn read(listing: &[u8]) -> Result<Plant, Refusal>
    ensures { answer_of result ≡ answer (reading listing.now) }
{
    let r = Reading::begin(listing);
    let h = r.header()?;
    let q = r.moved(h.next);
    let l = q.links(h)?;
    let p = q.moved(l.next);
    p.end(l)
}
