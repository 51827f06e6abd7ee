// The lines that the program `rules` prints (document 01, "Edges and marked cases"), laid into a lent buffer of bytes.
// Each function lays its bytes from place `at` on and answers the place after them: no writer keeps the two, since `Laid` speaks of both, and of the buffer before and after.
// Inner: each asks for room.
#![tactic(auto)]

ghost use Rattle.std.specs.Prelude.{◌+◌, ◌≤◌, ◌<◌, ◌∷◌, [], length};
ghost use Rattle.text.specs.Decimal.{decimal};
ghost use Rattle.text.specs.Lines.{newline, spaced, spaced_all, line, summary_line, rule_line, trail_line, refusal_of};
ghost use Rattle.text.specs.Sizes.{summary_most, refusal_most};
ghost use Rattle.text.specs.Laid.{Room, Laid};

// The most digits of a number below 1000, and of a number of 16 bits.
pub const DIGITS_SHORT: usize = 3;

const DIGITS_16: usize = 5;

// The most bytes of a line: its word, its numbers, each after a space, and its end. In a rule and in the trail they are below 1000; the trail line takes TRAIL, and
// LABEL for each label.
pub const SUMMARY: usize = 5 + 5 * (1 + DIGITS_16) + 1;

pub const RULE: usize = 4 + 3 * (1 + DIGITS_SHORT) + 1;

pub const TRAIL: usize = 5 + 1;

pub const LABEL: usize = 1 + DIGITS_SHORT;

pub const REFUSAL: usize = 7 + (1 + DIGITS_SHORT) + 1;

// The bytes of a word.
pub fn put_word(buf: &mut [u8], at: usize, word: &[u8]) -> usize
    requires { Room buf.old at word.now }
    ensures { Laid buf.old at word.now buf.new result }
{
    let end = at + word.len();
    buf[at..end].copy_from_slice(word);
    end
}

// A number below 1000 in decimal: one, two or three digits. They are laid at their place in the buffer; the library prints to a writer.
pub fn put_short(buf: &mut [u8], at: usize, n: u32) -> usize
    requires { (n < 1000) × Room buf.old at (decimal n) }
    ensures { Laid buf.old at (decimal n) buf.new result }
{
    if n < 10 {
        buf[at] = b'0' + n as u8;
        return at + 1;
    }
    if n < 100 {
        buf[at] = b'0' + (n / 10) as u8;
        buf[at + 1] = b'0' + (n % 10) as u8;
        return at + 2;
    }
    buf[at] = b'0' + (n / 100) as u8;
    buf[at + 1] = b'0' + (n / 10 % 10) as u8;
    buf[at + 2] = b'0' + (n % 10) as u8;
    at + 3
}

// A number in decimal: any other is its tenth, rounded down, and then its last digit.
fn put_decimal(buf: &mut [u8], at: usize, n: u32) -> usize
    requires { Room buf.old at (decimal n) }
    ensures { Laid buf.old at (decimal n) buf.new result }
{
    if n < 1000 {
        return put_short(buf, at, n);
    }
    let last = put_decimal(buf, at, n / 10);
    buf[last] = b'0' + (n % 10) as u8;
    last + 1
}

// A space and a number, which most often is short.
fn put_number(buf: &mut [u8], at: usize, n: u32) -> usize
    requires { Room buf.old at (spaced n) }
    ensures { Laid buf.old at (spaced n) buf.new result }
{
    buf[at] = b' ';
    if n < 1000 {
        return put_short(buf, at + 1, n);
    }
    put_decimal(buf, at + 1, n)
}

// The end of a line.
pub fn end_line(buf: &mut [u8], at: usize) -> usize
    requires { Room buf.old at (newline ∷ []) }
    ensures { Laid buf.old at (newline ∷ []) buf.new result }
{
    buf[at] = b'\n';
    at + 1
}

// Numbers, each after a space.
fn put_numbers(buf: &mut [u8], at: usize, ns: &[u16]) -> usize
    requires { Room buf.old at (spaced_all ns.now) }
    ensures { Laid buf.old at (spaced_all ns.now) buf.new result }
{
    let mut next = at;
    for n in ns {
        next = put_number(buf, next, u32::from(*n));
    }
    next
}

// A line of a word and numbers.
fn put_line(buf: &mut [u8], at: usize, word: &[u8], ns: &[u16]) -> usize
    requires { Room buf.old at (line word.now ns.now) }
    ensures { Laid buf.old at (line word.now ns.now) buf.new result }
{
    let numbers = put_word(buf, at, word);
    let end = put_numbers(buf, numbers, ns);
    end_line(buf, end)
}

// The first line of a plant's output.
pub fn put_summary(
    buf: &mut [u8],
    at: usize,
    switches: u16,
    links: u16,
    bridges: u16,
    rules: u16,
    hops: u16,
) -> usize
    requires { at + summary_most ≤ length buf.old }
    ensures laid { Laid buf.old at (summary_line switches links bridges rules hops) buf.new result }
    ensures upper_bound { result ≤ at + summary_most }
{
    let ns = [switches, links, bridges, rules, hops];
    put_line(buf, at, b"plant", &ns)
}

// The line of a rule.
pub fn put_rule(buf: &mut [u8], at: usize, from: u16, label: u16, to: u16) -> usize
    requires { Room buf.old at (rule_line from label to) }
    ensures { Laid buf.old at (rule_line from label to) buf.new result }
{
    let ns = [from, label, to];
    put_line(buf, at, b"rule", &ns)
}

// The trail line of these labels.
pub fn put_trail(buf: &mut [u8], at: usize, labels: &[u16]) -> usize
    requires { Room buf.old at (trail_line labels.now) }
    ensures { Laid buf.old at (trail_line labels.now) buf.new result }
{
    put_line(buf, at, b"trail", labels)
}

// The output of a refusal, at the front of the buffer.
pub fn put_refusal(buf: &mut [u8], n: u8) -> usize
    requires { refusal_most ≤ length buf.old }
    ensures { Laid buf.old 0 (refusal_of n) buf.new result }
{
    let ns = [u16::from(n)];
    put_line(buf, 0, b"refused", &ns)
}
