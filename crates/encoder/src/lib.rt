// The writer of a part of a listing (document 01, "Listing bytes"), for any fields, and its size. Inner: the calls are those of docs/CALLS.md.
#![tactic(auto)]

ghost use Rattle.std.specs.Prelude.{◌≡◌, ◌+◌, ◌*◌, ◌≤◌, length};
ghost use Rattle.std.proofs.lemmas.List.Edits.{sets};
ghost use Rattle.codec.specs.Field.{bytes_of};
ghost use Rattle.codec.specs.Part.{is_given, field_bytes, map_of, body_of, part_bytes};

use codec::{Field, Fields, measure};

// The bit of a field with this value.
fn field_bit(f: Field, value: u32) -> u8
    ensures { (result ≡ is_given f value) × (result ≤ 1) }
{
    if value == f.absent { 0 } else { 1 }
}

// The map of a part with these values: a byte has eight bits.
fn part_map<const N: usize>(fields: &[Field; N], values: &[u32; N]) -> u8
    requires { N ≤ 8 }
    ensures { result ≡ map_of fields.now values.now }
{
    let mut m: u8 = 0;
    // from the high bit down, over both arrays
    for i in (0..N).rev() {
        m = m * 2 + field_bit(fields[i], values[i]);
    }
    m
}

// The bytes of a part with these values.
pub fn part_size<const N: usize>(fields: &Fields<N>, values: &[u32; N]) -> usize
    ensures { (result ≡ length (part_bytes fields.now.list values.now)) × (result ≤ 4 * N + 1) }
{
    let extent = measure(fields, usize::from(part_map(&fields.list, values)));
    extent.size + 1
}

// A number into `width` bytes from `at` on, low byte first. Byte by byte, since the width can be any, also past the four bytes of the number.
fn put_number(buf: &mut [u8], at: usize, width: usize, value: u32)
    requires { at + width ≤ length buf.old }
    ensures { buf.new ≡ sets buf.old at (bytes_of width value) }
{
    let mut v = value;
    for i in 0..width {
        buf[at + i] = (v % 256) as u8;
        v = v / 256;
    }
}

// A field from `at` on; the place after it.
fn put_field(buf: &mut [u8], at: usize, f: Field, value: u32) -> usize
    requires { at + length (field_bytes f value) ≤ length buf.old }
    ensures value { result ≡ at + length (field_bytes f value) }
    ensures buf_after { buf.new ≡ sets buf.old at (field_bytes f value) }
{
    if value == f.absent {
        return at;
    }
    put_number(buf, at, f.width, value);
    at + f.width
}

// The fields of a part from `from` on; the place after them.
fn put_fields<const N: usize>(
    buf: &mut [u8],
    from: usize,
    fields: &[Field; N],
    values: &[u32; N],
) -> usize
    requires { from + length (body_of fields.now values.now) ≤ length buf.old }
    ensures value { result ≡ from + length (body_of fields.now values.now) }
    ensures buf_after { buf.new ≡ sets buf.old from (body_of fields.now values.now) }
{
    let mut at = from;
    for (i, f) in fields.iter().enumerate() {
        at = put_field(buf, at, *f, values[i]);
    }
    at
}

// A part from `at` on; the place after it.
pub fn put_part<const N: usize>(
    buf: &mut [u8],
    at: usize,
    fields: &Fields<N>,
    values: &[u32; N],
) -> usize
    requires { at + length (part_bytes fields.now.list values.now) ≤ length buf.old }
    ensures value { result ≡ at + length (part_bytes fields.now.list values.now) }
    ensures buf_after { buf.new ≡ sets buf.old at (part_bytes fields.now.list values.now) }
{
    buf[at] = part_map(&fields.list, values);
    put_fields(buf, at + 1, &fields.list, values)
}
