// The checksum of a list of numbers: 0, and then for each number v in turn (31 h + v + 1) mod 65521. And what a lent buffer holds before the call.
ghost use Rattle.std.specs.Prelude.{◌≡◌, ◌≤◌, length, take};
ghost use Rattle.caseform.specs.Checksum.{ChecksumOf, FilledBy, held_before, one_more};

use plant::{Link, Plant};
use table::{Rule, Table};

const MODULUS: u32 = 65521;

// What stands for a link's being out of service: no switch has this number.
const MARK: u16 = 255;

// The checksum with one number more.
pub fn with(h: u32, v: u16) -> u32
    ensures { result ≡ one_more h v }
{
    (h % MODULUS * 31 + u32::from(v) + 1) % MODULUS
}

// The checksum of what h is the checksum of, and then the numbers.
pub fn with_all<T: Copy + Into<u16>>(h: u32, numbers: &[T]) -> u32
    ensures { ChecksumOf T.Into.converts h numbers.now result }
{
    numbers.iter().fold(h, |h, v| with(h, (*v).into()))
}

pub fn of<T: Copy + Into<u16>>(numbers: &[T]) -> u32
    ensures { ChecksumOf T.Into.converts 0 numbers.now result }
{
    with_all(0, numbers)
}

// The first n of a list, or all if there are fewer.
pub fn front<T>(list: &[T], n: usize) -> &[T]
    ensures { result.now ≡ take n list.now }
{
    &list[..n.min(list.len())]
}

// The checksum with first end, second end and tag of a link, and then with the number of the mark if it is out of service.
fn with_link(h: u32, l: Link) -> u32 {
    let k = with_all(h, &[u16::from(l.first), u16::from(l.second), l.tag]);
    if l.out_of_service { with(k, MARK) } else { k }
}

// The links in use.
fn links(p: &Plant) -> &[Link]
    ensures { length result.now ≤ Plant.MAX_LINKS }
{
    front(&p.links, usize::from(p.count))
}

// The numbers of each link.
pub fn of_links(p: &Plant) -> u32 {
    links(p).iter().fold(0, |h, l| with_link(h, *l))
}

// How many those of all links are: three each, and the mark.
pub fn numbers_of_links(p: &Plant) -> u64 {
    let links = links(p);
    let marks = links.iter().filter(|l| l.out_of_service).count();
    3 * links.len() as u64 + marks as u64
}

// Sending switch, label and receiving switch of each rule.
pub fn of_rules(t: &Table) -> u32 {
    front(&t.rules, usize::from(t.count))
        .iter()
        .fold(0, |h, r| with_rule(h, *r))
}

fn with_rule(h: u32, r: Rule) -> u32 {
    with_all(h, &[u16::from(r.from), r.label, u16::from(r.to)])
}

// What a place of a lent buffer holds before the call.
fn before(i: usize) -> u8
    ensures { result ≡ held_before i }
{
    ((i % 251 * 7 + 3) % 251) as u8
}

pub fn fill<T: Copy + From<u8>>(buffer: &mut [T])
    ensures { FilledBy (λ i x. T.From.from_gives (held_before i) x) buffer.new }
{
    for (i, place) in buffer.iter_mut().enumerate() {
        *place = T::from(before(i));
    }
}
