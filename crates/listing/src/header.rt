// What the header of a listing says, as a value.
ghost use Rattle.std.specs.Prelude.{◌≤◌};
ghost use Rattle.limits.specs.Limits.{max_links};

// Switch count, link count and start of a header, and the place after it. No header that was read has more links than a plant has places.
#[derive(Clone, Copy, Debug, PartialEq, Eq)]
pub struct Header {
    pub switches: u8,
    pub count: u16,
    pub start: u8,
    pub next: usize,
    ghost few: { count ≤ max_links },
}
