// The plant: switches joined by two-way links, as a value. The limits are constants of its type, and are written here and nowhere else; so are the array
// lengths that follow from them, a place for each switch and one for each label. With it: a plant without links, the two ends of an arc by its label, and whether a link is in service.
#![tactic(auto)]

ghost use Rattle.std.specs.Prelude.{◌≡◌, not, ◌+◌, ◌-◌, ◌*◌, ◌%◌};
ghost use Rattle.plant.specs.Links.{zero_link, plant_with, side};

// A two-way link between two switches, with its cable tag. Label 2 * l crosses link l from its first end to its second, and 2 * l + 1 crosses it back. A link can be
// out of service (document 02, order 7: laid up): it keeps its number and its labels, and joins nothing.
#[derive(Clone, Copy, Debug, PartialEq, Eq)]
pub struct Link {
    pub first: u8,
    pub second: u8,
    pub tag: u16,
    pub out_of_service: bool,
}

// Switches are numbered from 0, and so are links. `count` places of `links` are in use; the others are zero.
#[derive(Clone, Copy, Debug, PartialEq, Eq)]
pub struct Plant {
    pub switches: u8,
    pub count: u16,
    pub start: u8,
    pub links: [Link; Plant::MAX_LINKS],
}

impl Link {
    // The link place that is not in use.
    pub fn zero() -> Link
        ensures { result ≡ zero_link }
    {
        Link {
            first: 0,
            second: 0,
            tag: 0,
            out_of_service: false,
        }
    }
}

impl Plant {
    // The most switches and the most links that a plant can have.
    pub const MAX_SWITCHES: u8 = 64;

    pub const MAX_LINKS: usize = 256;

    // The lengths of arrays with a place for each switch that a plant can have, and with one for each label.
    pub const PLACES: usize = Plant::MAX_SWITCHES as usize;

    pub const LABELS: usize = 2 * Plant::MAX_LINKS;

    // The most rules that a plant can have: one for each link, and one more for each bridge, of which there are fewer than switches.
    pub const MAX_RULES: usize = Plant::MAX_LINKS + Plant::PLACES - 1;

    // The most hops that a trail can have.
    pub const MAX_HOPS: usize = 20479;

    // A plant of so many switches and links, with every link place zero.
    pub fn with(switches: u8, count: u16, start: u8) -> Plant
        ensures { result ≡ plant_with Plant.MAX_LINKS switches count start }
    {
        let zero = Link::zero();
        let links = [zero; Plant::MAX_LINKS];
        Plant {
            switches,
            count,
            start,
            links,
        }
    }

    // One switch and no link: the plant of the listing `00`.
    pub fn empty() -> Plant
        ensures { result ≡ plant_with Plant.MAX_LINKS 1 0 0 }
    {
        Plant::with(1, 0, 0)
    }
}

// The switch that the arc of label a leaves, where l is the link that it crosses.
pub fn tail_of(l: Link, a: usize) -> u8
    ensures { result ≡ side (a % 2) l.first l.second }
{
    if a % 2 == 0 { l.first } else { l.second }
}

// The switch that it reaches.
pub fn head_of(l: Link, a: usize) -> u8
    ensures { result ≡ side (a % 2) l.second l.first }
{
    if a % 2 == 0 { l.second } else { l.first }
}

// Is the link in service?
pub fn in_service(l: Link) -> bool
    ensures { result ≡ not l.out_of_service }
{
    !l.out_of_service
}

// The limits as numbers, for definitions of the crates above. Each is a function of its own, since its contract asks the constant its value.
pub fn most_switches() -> u8
    ensures { result ≡ Plant.MAX_SWITCHES }
{
    Plant::MAX_SWITCHES
}

pub fn most_links() -> usize
    ensures { result ≡ Plant.MAX_LINKS }
{
    Plant::MAX_LINKS
}

// Each arc in use, of which there are at most as many as rules, has a way of fewer hops than switches before it and is crossed itself, and fewer lead home.
pub fn most_hops() -> usize
    ensures result_value { result ≡ Plant.MAX_HOPS }
    ensures result_value_2 { result ≡ Plant.MAX_RULES * Plant.PLACES + (Plant.PLACES - 1) }
{
    Plant::MAX_HOPS
}
