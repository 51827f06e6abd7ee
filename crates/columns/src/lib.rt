// Text in columns: a number at the right of so many columns, or a word at their left, laid into a lent buffer; and a number read from such a field. And the
// columns of the buying page's lines (document 02, order 3), written here and nowhere else. Inner: laying asks for room, reading for a number.
#![tactic(auto)]

ghost use Rattle.std.specs.Prelude.{◌≡◌, true, ◌+◌, ◌≤◌, ◌<◌, length};
ghost use Rattle.lists.specs.Members.{all};
ghost use Rattle.text.specs.Decimal.{decimal, read_decimal, is_digit, leads};
ghost use Rattle.text.specs.Laid.{Room, Laid};
ghost use Rattle.columns.specs.Fields.{most_digits, spaces, right_in, left_in, spaces_before, is_short, is_number, number_in};

// The columns of a line: those of its three fields, and all of them, the line's end among them.
pub const SWITCH: usize = 6;

pub const RULES: usize = 8;

pub const LINKS: usize = 8;

pub const LINE: usize = 32;

// How many columns come before the end of the second field, before that of the third, and before the last column.
pub const RULES_END: usize = SWITCH + RULES;

pub const LINKS_END: usize = RULES_END + LINKS;

pub const LAST: usize = LINE - 1;

// The columns of the fields and of a line as functions: each gives its constant.
pub fn switch_columns() -> usize
    ensures { result ≡ SWITCH }
{
    SWITCH
}

pub fn rules_columns() -> usize
    ensures { result ≡ RULES }
{
    RULES
}

pub fn links_columns() -> usize
    ensures { result ≡ LINKS }
{
    LINKS
}

pub fn line_columns() -> usize
    ensures { result ≡ LINE }
{
    LINE
}

// So many spaces.
pub fn put_spaces(buf: &mut [u8], at: usize, n: usize) -> usize
    requires { Room buf.old at (spaces n) }
    ensures { Laid buf.old at (spaces n) buf.new result }
{
    let end = at + n;
    buf[at..end].fill(b' ');
    end
}

// How many digits a number below 1000 has.
fn digits_of(n: u32) -> usize
    requires { n < 1000 }
    ensures { result ≡ length (decimal n) }
{
    if n < 10 {
        return 1;
    }
    if n < 100 {
        return 2;
    }
    3
}

// A number below 1000 at the right of so many columns.
pub fn put_right(buf: &mut [u8], at: usize, columns: usize, n: u32) -> usize
    requires n_bound { n < 1000 }
    requires most_digits_le_columns { most_digits ≤ columns }
    requires room { Room buf.old at (right_in columns (decimal n)) }
    ensures { Laid buf.old at (right_in columns (decimal n)) buf.new result }
{
    let end = put_spaces(buf, at, columns);
    let digits = digits_of(n);
    text::put_short(buf, end - digits, n);
    end
}

// A word at the left of so many columns.
pub fn put_left(buf: &mut [u8], at: usize, columns: usize, word: &[u8]) -> usize
    requires word_len_bound { length word.now ≤ columns }
    requires room { Room buf.old at (left_in columns word.now) }
    ensures { Laid buf.old at (left_in columns word.now) buf.new result }
{
    let next = text::put_word(buf, at, word);
    put_spaces(buf, next, columns - word.len())
}

// How many spaces come before the first other byte of a field.
pub fn spaces_before(field: &[u8]) -> usize
    ensures value { result ≡ spaces_before field.now }
    ensures upper_bound { result ≤ length field.now }
{
    field.iter().take_while(|b| **b == b' ').count()
}

// Is each of these bytes a digit?
fn all_digits(bytes: &[u8]) -> bool
    ensures { result ≡ all is_digit bytes.now }
{
    bytes.iter().all(|b| b.is_ascii_digit())
}

// Is there a byte, and is the first of several not the digit zero?
fn leads(bytes: &[u8]) -> bool
    ensures { result ≡ leads bytes.now }
{
    match bytes {
        [] => false,
        [_] => true,
        [first, ..] => *first != b'0',
    }
}

// Are these bytes a number of one to three digits with no leading zero?
#[tactic(auto, unfolding(crate::specs::Fields::is_short, text::specs::Decimal::is_decimal))]
pub fn is_short(bytes: &[u8]) -> bool
    ensures { result ≡ is_short bytes.now }
{
    bytes.len() <= text::DIGITS_SHORT && leads(bytes) && all_digits(bytes)
}

// The number that such bytes are.
pub fn short_of(bytes: &[u8]) -> u16
    requires { is_short bytes.now ≡ true }
    ensures value { result ≡ read_decimal bytes.now }
    ensures upper_bound { result < 1000 }
{
    let mut n: u16 = 0;
    for b in bytes {
        n = n * 10 + u16::from(*b - b'0');
    }
    n
}

// Is there such a number at the right of this field, and nothing else?
pub fn is_number(field: &[u8]) -> bool
    ensures { result ≡ is_number field.now }
{
    let from = spaces_before(field);
    is_short(&field[from..])
}

// The number in such a field.
pub fn number_in(field: &[u8]) -> u16
    requires { is_number field.now ≡ true }
    ensures value { result ≡ number_in field.now }
    ensures upper_bound { result < 1000 }
{
    let from = spaces_before(field);
    short_of(&field[from..])
}
