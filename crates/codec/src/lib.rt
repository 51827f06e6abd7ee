// A part of a listing (document 01, "Listing bytes"): a map byte, then the fields whose bit is set, by rising bit. Its reader, for any fields. Inner: the calls are those of docs/CALLS.md.
#![tactic(auto)]

ghost use Rattle.std.specs.Prelude.{◌≡◌, ◌+◌, ◌*◌, ◌^◌, ◌≤◌, ◌<◌, length, get_or, take, drop};
ghost use Rattle.answers.specs.Checks.{answer};
ghost use Rattle.answers.specs.Results.{answer_as};
ghost use Rattle.codec.specs.Field.{number};
ghost use Rattle.codec.specs.Part.{taken, value_of, redundant, size, rest, values, some_redundant, part};
ghost use Rattle.codec.specs.Layout.{Narrow, part_of};

use answers::{Refusal, judge};

// A field of a part: its width in bytes, and the value that its absence means. A bit with no field is one of no bytes: where it is set its value is 0.
#[derive(Clone, Copy, Debug, PartialEq, Eq)]
pub struct Field {
    pub width: usize,
    pub absent: u32,
}

// The fields of a part, by rising bit. A map byte has a bit for each, and a number of 32 bits has room for its bytes.
#[derive(Clone, Copy, Debug, PartialEq, Eq)]
pub struct Fields<const N: usize> {
    pub list: [Field; N],
    pub ghost few: { N ≤ 8 },
    pub ghost narrow: { Narrow list },
}

// The values of a part with so many fields, by rising bit, and the place after it.
#[derive(Clone, Copy, Debug, PartialEq, Eq)]
pub struct Part<const N: usize> {
    pub values: [u32; N],
    pub next: usize,
}

// A field that was read: its value, the bytes that it takes, and whether it is given with the value that its absence means.
#[derive(Clone, Copy)]
struct Found {
    value: u32,
    size: usize,
    redundant: bool,
}

// What a map tells: the bytes that the fields take, and what is left of it once each field has taken its bit.
#[derive(Clone, Copy, Debug, PartialEq, Eq)]
pub struct Extent {
    pub size: usize,
    pub rest: usize,
}

// The byte at a place; past the end it counts as 0.
fn byte_at(s: &[u8], at: usize) -> u32
    ensures { (result ≡ get_or s.now at 0) × (result < 2 ^ 8) }
{
    s.get(at).map_or(0, |b| u32::from(*b))
}

// The number in `width` bytes from `at` on, low byte first.
fn number_at(s: &[u8], at: usize, width: usize) -> u32
    requires { (width ≤ 4) × (at + 4 < 2 ^ 64) }
    ensures { result ≡ number (take width (drop at s.now)) }
{
    let mut n: u32 = 0;
    for i in (0..width).rev() {
        n = n * 256 + byte_at(s, at + i);
    }
    n
}

// The field that stands at `at`, by its bit. It is one field alone, so its width is said here.
#[tactic(auto, unfolding(crate::specs::Part::taken, crate::specs::Part::value_of, crate::specs::Part::redundant))]
fn read_field(s: &[u8], at: usize, bit: usize, f: Field) -> Found
    requires { (f.width ≤ 4) × (at + 4 < 2 ^ 64) }
    ensures value_is { result.value ≡ value_of f bit (drop at s.now) }
    ensures size_is { result.size ≡ taken f bit }
    ensures redundant_is { result.redundant ≡ redundant f bit (drop at s.now) }
{
    if bit == 0 {
        return Found {
            value: f.absent,
            size: 0,
            redundant: false,
        };
    }
    let value = number_at(s, at, f.width);
    Found {
        value,
        size: f.width,
        redundant: value == f.absent,
    }
}

// The bytes that a field takes, by its bit. It is one field alone, so its width is said here.
#[tactic(auto, unfolding(crate::specs::Part::taken))]
fn taken_by(f: Field, bit: usize) -> usize
    requires { f.width ≤ 4 }
    ensures { (result ≡ taken f bit) × (result ≤ 4) }
{
    if bit == 0 { 0 } else { f.width }
}

// What this map tells of these fields.
pub fn measure<const N: usize>(fields: &Fields<N>, map: usize) -> Extent
    ensures { (result.size ≡ size map fields.now.list) × (result.rest ≡ rest map fields.now.list) × (result.size ≤ 4 * N) }
{
    let mut rest = map;
    let mut size = 0;
    for f in &fields.list {
        size += taken_by(*f, rest % 2);
        rest /= 2;
    }
    Extent { size, rest }
}

// The fields of the part at `at`, whose map was read, and whether one of them is redundant; a byte that is not there counts as 0.
fn read_fields<const N: usize>(
    s: &[u8],
    at: usize,
    map: usize,
    fields: &Fields<N>,
) -> (Part<N>, bool)
    requires { at < length s.now }
    ensures values_are { result.0.values ≡ values map fields.now.list (drop (at + 1) s.now) }
    ensures next_is { result.0.next ≡ at + 1 + size map fields.now.list }
    ensures redundant_is { result.1 ≡ some_redundant map fields.now.list (drop (at + 1) s.now) }
{
    let mut values = [0; N];
    let mut next = at + 1;
    let mut redundant = false;
    let mut rest = map;
    for (i, f) in fields.list.iter().enumerate() {
        let found = read_field(s, next, rest % 2, *f);
        values[i] = found.value;
        next += found.size;
        redundant |= found.redundant;
        rest /= 2;
    }
    (Part { values, next }, redundant)
}

// The part that begins at `at`: refusals 1 to 4.
pub fn read_part<const N: usize>(
    s: &[u8],
    at: usize,
    fields: &Fields<N>,
) -> Result<Part<N>, Refusal>
    ensures { answer_as (part_of s.now) result ≡ answer (part fields.now.list (drop at s.now)) }
{
    judge(s.len() <= at, Refusal::MapMissing)?;
    let map = usize::from(s[at]);
    let extent = measure(fields, map);
    judge(0 < extent.rest, Refusal::MapUndefined)?;
    let (part, redundant) = read_fields(s, at, map, fields);
    judge(s.len() - (at + 1) < extent.size, Refusal::FieldMissing)?;
    judge(redundant, Refusal::FieldRedundant)?;
    Ok(part)
}
