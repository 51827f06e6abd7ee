// Reads cases from standard input, makes the public call of each, and prints its answer, one line a case.
//
// A case is one byte, the call, and then its arguments. A number is one byte or two, low byte first; a byte string is a two-byte length and its bytes; a list
// of labels is a two-byte count and two bytes each; a search is its kind (0 Checking, 1 Halving, 2 AllUp, 3 Down), two two-byte numbers, and one byte for the
// sendings lost so far.
//
//  1 read            listing                                  switches, links, start, checksum of the links
//  2 write           plant, buffer length                     length
//  3 summary         listing                                  switches, links, bridges, rules, hops
//  4 bridges         listing                                  checksum of a flag for each link
//  5 rules           listing                                  checksum of the rules
//  6 trail           listing, buffer length                   hops
//  7 run             listing, switch, labels, states          ended or lost, hops, last switch
//  8 full check      listing, switch, trail, states           returned or lost, hops, last switch
//  9 order           listing, switch, trail                   checksum of the links in order
// 10 outward labels  listing, switch, trail, search           checksum of the labels
// 11 probe wanted    listing, switch, trail, states, search   returned or lost, hops, last switch
// 12 link named      listing, switch, trail, search           link and its number, none or open
// 13 new search      listing, switch                          search
// 14 ask             search                                   m
// 15 give            search, outcome                          search
// 16 perform         listing, switch, calls                   search, numbers of probes and packets
// 17 order quantity  rules (two bytes), spare                 quantity
// 18 rewrite         listing, buffer length                   length
// 19 reread          plant, buffer length                     as of read
// 20 allowance       links (two bytes)                        allowance
// 21 long run        listing, switch, labels, times (two      as of run, with the labels so many times over and then
//                    bytes), more labels, states              those of the second list
// 22 by switch       listing                                  total, checksum of a number for each switch place
// 23 page written    listing, spare, buffer length            length
// 24 page read       page                                     switches, total, quantity, checksums of a number for each
//                                                             switch place: rules, and links
// 25 round trail     listing, buffer length                   hops
// 26 round run       listing, switch, round trail, states     returned or lost, hops, last switch
// 27 shorter trail   listing, switch, trail, round trail      trail or round, checksum of the labels handed back
// 28 write marked    plant, marks, buffer length              length
// 29 reread marked   plant, marks, buffer length              as of read
// 30 new set         listing, desk, console, set              set, search
// 31 start           listing, desk, console, switch           set, search
// 32 outcome         listing, desk, console, outcome          set, search
// 33 components      listing                                  five numbers for each component: its first switch, begin
//                                                             and hops of its trail, begin and hops of its round trail
//
// A plant is its switches, links (two bytes) and start, a two-byte number of link places, and first end, second end and tag (two bytes) of each; the other link
// places are zero. Marks are a byte string, a byte for each link place from the first on: it is out of service if its byte is not 0, and in service where there
// is none. A set is eight bytes, low byte first. A desk is its four consoles, each a set, a byte that is 0 if there is no search, and a switch and a search. A
// console is printed as its set, and then the word `none`, or `from`, the switch and the search. The links that are read are printed as the list of first end,
// second end and tag of each, with 255 after the tag of one out of service. A refusal is the word `refused` and its number. The line of a call that is lent a
// buffer or a desk ends with its checksum after the call. A list prints as its count, a colon and its checksum. A desk is the list of 14 numbers for each
// console: the bytes of its set, 1, the switch, the kind of the search, its two numbers, and the sendings lost so far, with 0 for a number that is not there,
// and six zeros for no search.
#![tactic(auto)]

mod searches;

ghost use Rattle.std.specs.Prelude.{◌≡◌, length};
ghost use Rattle.streams.specs.Streams.{Grows};

use caseform::input::Input;
use caseform::show;
use std::io;
use std::io::Write;

// The most bytes of input that are read.
const INPUT: usize = 2450000;

// Writes the answer of a call to the arguments that are next in the input. A byte that is no call ends the input. A call goes by its number, which has one arm: an enum of
// the calls would only say the table above once more.
fn answer<W: Write>(out: &mut W, call: u8, input: &mut Input) -> io::Result<()>
    ensures { Grows (W.contents out.old) (W.contents out.new) }
{
    match call {
        7..=12 | 21 | 26 | 27 => casepackets::answer(out, call, input),
        13..=17 | 20 => searches::answer(out, call, input),
        30..=32 => casedesks::answer(out, call, input),
        _ => caseplans::answer(out, call, input),
    }
}

// Writes the answers of all cases. Each takes one byte at least, so there are no more cases than bytes. What was written before stays, also after an error.
fn answer_all<W: Write>(out: &mut W, s: &[u8]) -> io::Result<()>
    ensures { Grows (W.contents out.old) (W.contents out.new) }
{
    let mut input = Input::new(s);
    for _ in s {
        let Some(call) = input.next() else {
            return Ok(());
        };
        answer(out, call, &mut input)?;
        show::word(out, b"\n")?;
    }
    Ok(())
}

// Places for the input: a function of its own, so that their number stands alone where the input is read.
fn space() -> [u8; INPUT]
    ensures { INPUT ≡ length result }
{
    [0; INPUT]
}

fn main(rt: HostRuntime) -> io::Result<()> {
    let mut input = space();
    let n = streams::fill(&mut rt.stdin(), &mut input)?;
    answer_all(&mut rt.stdout(), &input[..n])
}
