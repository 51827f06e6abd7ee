// The buying page (document 02, order 3): its counts, its lines, and its writer. Inner: the calls are those of docs/CALLS.md.
#![tactic(auto)]

ghost use Rattle.std.specs.Prelude.{◌≡◌, ◌++◌, ◌+◌, ◌*◌, ◌≤◌, ◌<◌, length, drop};
ghost use Rattle.lists.specs.Numbers.{range};
ghost use Rattle.limits.specs.Limits.{max_switches};
ghost use Rattle.text.specs.Lines.{each};
ghost use Rattle.text.specs.Laid.{Room, Laid};
ghost use Rattle.sheet.specs.Columns.{line_columns};
ghost use Rattle.sheet.specs.Page.{switch_line, total_line, buying_page, page_length};
ghost use Rattle.sheet.specs.Shown.{ThreeDigits};
ghost use Rattle.sheet.specs.Numbers.{numbers_of};

use columns::{LAST, LINE, LINKS, LINKS_END, RULES, SWITCH};
use plant::Plant;

// The counts of a buying page: the rules of each switch and the links at it, at the place of the switch, all rules, and the order quantity.
#[derive(Clone, Copy)]
pub struct Sheet {
    pub switches: u8,
    pub rules: [u16; Plant::PLACES],
    pub links: [u16; Plant::PLACES],
    pub total: u16,
    pub quantity: u32,
}

// Counts that a page can hold: there are not too many switches, and each number has at most three digits.
#[derive(Clone, Copy)]
pub struct Quote {
    pub sheet: Sheet,
    pub ghost few: { sheet.switches ≤ max_switches },
    pub ghost three_digits: { ThreeDigits sheet },
}

// What follows the first field of a line: two numbers, spaces and the line's end.
fn put_numbers(buf: &mut [u8], at: usize, rules: u16, links: u32) -> usize
    requires rules_bound { (rules < 1000) × (links < 1000) }
    requires room { Room buf.old at (numbers_of rules links) }
    ensures { Laid buf.old at (numbers_of rules links) buf.new result }
{
    let second = columns::put_right(buf, at, RULES, rules as u32);
    let rest = columns::put_right(buf, second, LINKS, links);
    let end = columns::put_spaces(buf, rest, LAST - LINKS_END);
    text::end_line(buf, end)
}

// The line of switch x.
fn put_switch(quote: &Quote, x: usize, buf: &mut [u8], at: usize) -> usize
    requires x_lt_switches { x < quote.now.sheet.switches }
    requires line_columns_in_bounds { at + line_columns ≤ length buf.old }
    ensures { Laid buf.old at (switch_line quote.now.sheet x) buf.new result }
{
    let s = &quote.sheet;
    let next = columns::put_right(buf, at, SWITCH, x as u32);
    put_numbers(buf, next, s.rules[x], s.links[x] as u32)
}

// The last line.
fn put_total(quote: &Quote, buf: &mut [u8], at: usize) -> usize
    requires line_columns_in_bounds { at + line_columns ≤ length buf.old }
    ensures { Laid buf.old at (total_line quote.now.sheet) buf.new result }
{
    let next = columns::put_left(buf, at, SWITCH, b"total");
    put_numbers(buf, next, quote.sheet.total, quote.sheet.quantity)
}

// The line of each switch.
fn put_switches(quote: &Quote, buf: &mut [u8]) -> usize
    requires { page_length quote.now.sheet ≤ length buf.old }
    ensures { Laid buf.old 0 (each (switch_line quote.now.sheet) (range 0 quote.now.sheet.switches)) buf.new result }
{
    let mut next: usize = 0;
    for x in 0..usize::from(quote.sheet.switches) {
        next = put_switch(quote, x, buf, next);
    }
    next
}

// The length of a page with so many switches.
pub fn page_length(switches: u8) -> usize
    ensures { result ≡ line_columns * (switches + 1) }
{
    LINE * (switches as usize + 1)
}

// The page of these counts at the front of the buffer.
pub fn put_page(quote: &Quote, buf: &mut [u8])
    requires { page_length quote.now.sheet ≤ length buf.old }
    ensures { buf.new ≡ buying_page quote.now.sheet ++ drop (page_length quote.now.sheet) buf.old }
{
    let last = put_switches(quote, buf);
    put_total(quote, buf, last);
}
