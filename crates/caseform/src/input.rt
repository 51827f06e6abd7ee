// The arguments of a case, read one after the other. What lies past the end of the input counts as zeros.
ghost use Rattle.std.specs.Prelude.{◌≡◌, ◌+◌, ◌*◌, ◌≤◌, [], length, get_or, slice_get, take, drop};
ghost use Rattle.std.specs.Int.{from_le_bytes, w64};

use plant::{Link, Plant};
use search::{Outcome, Search};

// More than any two-byte number.
pub const PLACES: usize = 256 * 256;

// What is left of the input.
#[derive(Drop)]
pub struct Input<'a> {
    pub rest: &'a [u8],
}

impl<'a> Input<'a> {
    pub fn new(bytes: &'a [u8]) -> Input<'a>
        ensures { result.rest.now ≡ bytes.now }
    {
        Input { rest: bytes }
    }

    // As many of n bytes as there are.
    fn take(&mut self, n: usize) -> &'a [u8]
        ensures taken { result.now ≡ take n self.old.rest.now }
        ensures rest { self.new.rest.now ≡ drop n self.old.rest.now }
    {
        let (taken, rest) = self.rest.split_at(n.min(self.rest.len()));
        self.rest = rest;
        taken
    }

    // The next byte, if there is one: the call of a case.
    pub fn next(&mut self) -> Option<u8>
        ensures byte { result ≡ slice_get self.old.rest.now 0 }
        ensures rest { self.new.rest.now ≡ drop 1 self.old.rest.now }
    {
        self.take(1).first().copied()
    }

    // Nothing more is read.
    pub fn end(&mut self)
        ensures { self.new.rest.now ≡ [] }
    {
        self.rest = &[];
    }

    pub fn byte(&mut self) -> u8
        ensures byte { result ≡ get_or self.old.rest.now 0 0 }
        ensures rest { self.new.rest.now ≡ drop 1 self.old.rest.now }
    {
        self.next().unwrap_or(0)
    }

    // A number of two bytes, low byte first.
    pub fn number(&mut self) -> u16
        ensures number { result ≡ get_or self.old.rest.now 0 0 + 256 * get_or self.old.rest.now 1 0 }
        ensures rest { self.new.rest.now ≡ drop 2 self.old.rest.now }
    {
        let low = u16::from(self.byte());
        low + 256 * u16::from(self.byte())
    }

    // A set of eight bytes, low byte first.
    pub fn set(&mut self) -> u64
        ensures number { result ≡ from_le_bytes w64 self.old.rest.now }
        ensures rest { self.new.rest.now ≡ drop 8 self.old.rest.now }
    {
        let mut bytes = [0; 8];
        for byte in &mut bytes {
            *byte = self.byte();
        }
        u64::from_le_bytes(bytes)
    }

    // A byte string: a two-byte length, and the bytes.
    pub fn string(&mut self) -> &'a [u8]
        ensures { result.now ≡ take (get_or self.old.rest.now 0 0 + 256 * get_or self.old.rest.now 1 0) (drop 2 self.old.rest.now) }
    {
        let n = self.number();
        self.take(usize::from(n))
    }

    // A list of labels, a two-byte count and two bytes each, to the front of the lent places: these, or as many as there is place for.
    pub fn labels<'b>(&mut self, places: &'b mut [u16]) -> &'b [u16]
        ensures { length result.now ≤ length places.old }
    {
        let n = usize::from(self.number());
        let mut list = Input::new(self.take(2 * n));
        let count = n.min(places.len());
        let labels = &mut places[..count];
        for label in labels.iter_mut() {
            *label = list.number();
        }
        labels
    }

    pub fn search(&mut self) -> Search {
        let kind = self.byte();
        let a = self.number();
        let b = self.number();
        let lost = self.byte();
        match kind {
            0 => Search::Checking(a, lost),
            1 => Search::Halving(a, b, lost),
            2 => Search::AllUp,
            _ => Search::Down(a),
        }
    }

    // An outcome that is given to a search: lost if the byte is 0.
    pub fn outcome(&mut self) -> Outcome {
        match self.byte() {
            0 => Outcome::Lost,
            _ => Outcome::Returned,
        }
    }

    fn link(&mut self) -> Link {
        Link {
            first: self.byte(),
            second: self.byte(),
            tag: self.number(),
            out_of_service: false,
        }
    }

    // Switches, links, start, and the link places that are given.
    pub fn plant(&mut self) -> Plant {
        let mut p = Plant::with(self.byte(), self.number(), self.byte());
        let n = usize::from(self.number());
        let mut given = Input::new(self.take(4 * n));
        for link in p.links.iter_mut().take(n) {
            *link = given.link();
        }
        p
    }

    // A plant, and a byte string with a byte for each link place that is given: out of service if it is not 0.
    pub fn marked_plant(&mut self) -> Plant {
        let mut p = self.plant();
        for (link, mark) in p.links.iter_mut().zip(self.string()) {
            link.out_of_service = *mark != 0;
        }
        p
    }
}

// The list to the lent places from one of them on, as much of it as there is place for; the place after it.
fn copy(list: &[u16], places: &mut [u16], at: usize) -> usize
    requires { at ≤ length places.old }
    ensures { result ≤ length places.new }
{
    let n = list.len().min(places.len() - at);
    let to = at + n;
    places[at..to].copy_from_slice(&list[..n]);
    to
}

// The labels of the one list so many times over, and then those of the other, to the front of the lent places: these, or as many as there is place for.
pub fn packet<'a>(list: &[u16], times: u16, more: &[u16], places: &'a mut [u16]) -> &'a [u16]
    ensures { length result.now ≤ length places.old }
{
    let mut at = 0;
    for _ in 0..times {
        at = copy(list, places, at);
    }
    at = copy(more, places, at);
    &places[..at]
}
