// The buying page (document 02, order 3) read: whether lent bytes are of its form, and the counts in it. Inner: the calls are those of docs/CALLS.md.
#![tactic(auto)]

ghost use Rattle.std.specs.Prelude.{◌≡◌, true, ◌&&◌, ◌+◌, ◌≤◌, ◌<◌, eqb};
ghost use Rattle.lists.specs.Members.{all};
ghost use Rattle.lists.specs.Numbers.{every};
ghost use Rattle.lists.specs.Sum.{sum};
ghost use Rattle.answers.specs.Checks.{answer};
ghost use Rattle.answers.specs.Results.{answer_of};
ghost use Rattle.limits.specs.Limits.{max_switches};
ghost use Rattle.text.specs.Lines.{space};
ghost use Rattle.columns.specs.Fields.{number_in};
ghost use Rattle.sheet.specs.Columns.{switch_end, rules_end, columns_of};
ghost use Rattle.sheet.specs.Form.{numbers_held, spaces_else, of_switch, of_total, line_at, rules_on, whole_lines, column_of, formed, counts_in, reading_page};
ghost use Rattle.readback.specs.Held.{Line, Lines, Held, AllHeld};

use answers::Refusal;
use columns::{LAST, LINE, LINKS_END, RULES_END, SWITCH};
use plant::Plant;
use sheet::Sheet;

// ---- a line

// The line at a place.
fn line_at(page: &[u8], x: usize) -> &[u8]
    requires { Lines page.now (x + 1) }
    ensures value { result.now ≡ line_at page.now x }
    ensures columns { Line result.now }
{
    let from = LINE * x;
    let to = from + LINE;
    &page[from..to]
}

// Are there numbers in its two number fields?
#[tactic(auto, unfolding(sheet::specs::Form::numbers_held))]
fn numbers_held(line: &[u8]) -> bool
    requires { Line line.now }
    ensures { result ≡ numbers_held line.now }
{
    columns::is_number(&line[SWITCH..RULES_END]) && columns::is_number(&line[RULES_END..LINKS_END])
}

// Are these bytes spaces alone?
fn are_spaces(bytes: &[u8]) -> bool
    ensures { result ≡ all (eqb space) bytes.now }
{
    bytes.iter().all(|b| *b == b' ')
}

// Are there spaces past its fields, and a newline last?
#[tactic(auto, unfolding(sheet::specs::Form::spaces_else))]
fn spaces_else(line: &[u8]) -> bool
    requires { Line line.now }
    ensures { result ≡ spaces_else line.now }
{
    are_spaces(&line[LINKS_END..LAST]) && line[LAST] == b'\n'
}

// Does its first field have `total` at its left?
#[tactic(auto, using(crate::proofs::Lines::total_tested))]
fn of_total(line: &[u8]) -> bool
    requires { Line line.now }
    ensures { result ≡ of_total line.now }
{
    line.starts_with(b"total ")
}

// ---- a page of n lines at least

// Are there numbers in the number fields of line x, and is all else past its first field as it should be?
fn is_plain(page: &[u8], x: usize) -> bool
    requires { Lines page.now (x + 1) }
    ensures { result ≡ numbers_held (line_at page.now x) && spaces_else (line_at page.now x) }
{
    let line = line_at(page, x);
    numbers_held(line) && spaces_else(line)
}

// Does the first field of line x hold switch x?
#[tactic(auto, unfolding(sheet::specs::Form::of_switch))]
fn of_switch(page: &[u8], x: usize) -> bool
    requires { Lines page.now (x + 1) }
    ensures { result ≡ of_switch (line_at page.now x) x }
{
    let field = &line_at(page, x)[..SWITCH];
    columns::is_number(field) && usize::from(columns::number_in(field)) == x
}

// Are there numbers in the number fields of each line, and spaces elsewhere?
fn plain_lines(page: &[u8], n: usize) -> bool
    requires { Lines page.now n }
    ensures { result ≡ every n (λ x. numbers_held (line_at page.now x) && spaces_else (line_at page.now x)) }
{
    (0..n).all(|x| is_plain(page, x))
}

// Are they the lines of the switches from 0 on?
fn rising(page: &[u8], n: usize) -> bool
    requires { Lines page.now n }
    ensures { result ≡ every n (λ x. of_switch (line_at page.now x) x) }
{
    (0..n).all(|x| of_switch(page, x))
}

// The number in the columns past the first `from` and among the first `to` of line x.
fn number_on(page: &[u8], x: usize, from: usize, to: usize) -> u16
    requires lines { Lines page.now (x + 1) }
    requires held { Held page.now from to x }
    ensures value { result ≡ number_in (columns_of from to (line_at page.now x)) }
    ensures upper_bound { result < 1000 }
{
    let line = line_at(page, x);
    columns::number_in(&line[from..to])
}

// The sum of the rules in n lines.
fn rules_sum(page: &[u8], n: usize) -> u16
    requires n_le_max_switches { (n ≤ max_switches) × Lines page.now n }
    requires all_held { AllHeld page.now switch_end rules_end n }
    ensures { result ≡ sum n (rules_on page.now) }
{
    let mut total: u16 = 0;
    for x in 0..n {
        total += number_on(page, x, SWITCH, RULES_END);
    }
    total
}

// The numbers of n lines in the same columns, at the places of their switches, and zeros past them.
fn column(page: &[u8], n: usize, from: usize, to: usize) -> [u16; Plant::PLACES]
    requires n_le_max_switches { (n ≤ max_switches) × Lines page.now n }
    requires all_held { AllHeld page.now from to n }
    ensures { result ≡ column_of n (λ x. number_in (columns_of from to (line_at page.now x))) }
{
    let mut numbers = [0u16; Plant::PLACES];
    for x in 0..n {
        numbers[x] = number_on(page, x, from, to);
    }
    numbers
}

// ---- its form and its counts

// Is it of 2 lines at least, of one for each switch that a plant can have and one more at most, and of nothing more?
#[tactic(auto, unfolding(sheet::specs::Form::whole_lines))]
fn whole_lines(page: &[u8]) -> bool
    ensures { result ≡ whole_lines page.now }
{
    let lines = page.len() / LINE;
    page.len() % LINE == 0 && 2 <= lines && lines <= Plant::PLACES + 1
}

// Is it of the form of a buying page? One test after the other: those before say that the lines of the next are there and hold numbers.
fn is_formed(page: &[u8]) -> bool
    ensures { result ≡ formed page.now }
{
    if !whole_lines(page) {
        return false;
    }
    let lines = page.len() / LINE;
    let last = lines - 1;
    if !plain_lines(page, lines) {
        return false;
    }
    if !rising(page, last) {
        return false;
    }
    if !of_total(line_at(page, last)) {
        return false;
    }
    let sum = rules_sum(page, last);
    let total = number_on(page, last, SWITCH, RULES_END);
    sum == total
}

// The counts in a page of that form.
fn counts_in(page: &[u8]) -> Sheet
    requires { formed page.now ≡ true }
    ensures { result ≡ counts_in page.now }
{
    let last = page.len() / LINE - 1;
    let rules = column(page, last, SWITCH, RULES_END);
    let links = column(page, last, RULES_END, LINKS_END);
    let total = number_on(page, last, SWITCH, RULES_END);
    let quantity = number_on(page, last, RULES_END, LINKS_END);
    Sheet {
        switches: last as u8,
        rules,
        links,
        total,
        quantity: u32::from(quantity),
    }
}

// The counts in a page: refusal 18.
#[tactic(auto, unfolding(sheet::specs::Form::reading_page))]
pub fn read(page: &[u8]) -> Result<Sheet, Refusal>
    ensures { answer_of result ≡ answer (reading_page page.now) }
{
    if !is_formed(page) {
        return Err(Refusal::BuyingPageUnfit);
    }
    Ok(counts_in(page))
}
