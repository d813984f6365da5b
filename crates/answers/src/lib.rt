// The lines that a session prints, written into a lent buffer.
#![tactic(auto)]

ghost use Rattle.std.specs.Prelude.{◌≡◌, ◌++◌, ◌+◌, ◌*◌, ◌≤◌, length};
ghost use Rattle.octets.specs.Bytes.{put};
ghost use Rattle.octets.specs.Loop.{join};
ghost use Rattle.view.specs.Size.{nodes};
ghost use Rattle.view.specs.Report.{report_number};
ghost use Rattle.digits.specs.Decimal.{decimal};
ghost use Rattle.answers.specs.Answer.{start, entry, entry_at, feed, line, number_room, word_room, room};
ghost use Rattle.answers.specs.Answer.{start_room, entry_room};

use digits::Digits;
use octets::put_bytes;
use view::{NODES, REPORT, Report, View};

// The most bytes of a number, of a word with its spaces, of the start of a line, of an entry and of a line.
const NUMBER_ROOM: usize = 20;

const WORD_ROOM: usize = 7;

const START_ROOM: usize = NUMBER_ROOM + WORD_ROOM + NUMBER_ROOM;

const ENTRY_ROOM: usize = 1 + 2 * REPORT;

pub const ROOM: usize = START_ROOM + ENTRY_ROOM * NODES + 1;

// What is printed of an event: the ending of an operation at a node, a refusal's number.
#[derive(Clone, Copy)]
pub enum Printed {
    Done(usize),
    Scan(usize),
    Spent(usize),
    No(usize),
}

// Each function writes at a place, and answers the place after what it wrote.
fn put_number(out: &mut [u8], at: usize, x: u64) -> usize
    requires { at + number_room ≤ length out.old }
    ensures { (out.new ≡ put out.old at (decimal x))
        × (result ≡ at + length (decimal x)) × (result ≤ at + number_room) }
{
    let Digits { text, from } = digits::decimal(x);
    put_bytes(out, at, &text[from..]);
    at + (NUMBER_ROOM - from)
}

fn put_start(out: &mut [u8], at: usize, event: u64, word: &[u8], x: u64) -> usize
    requires { (length word.now ≤ word_room) × (at + start_room ≤ length out.old) }
    ensures { (out.new ≡ put out.old at (start event word.now x))
        × (result ≡ at + length (start event word.now x)) × (result ≤ at + start_room) }
{
    let k = put_number(out, at, event);
    put_bytes(out, k, word);
    put_number(out, k + word.len(), x)
}

fn put_entry(out: &mut [u8], at: usize, tag: u64, p: Report) -> usize
    requires { at + entry_room ≤ length out.old }
    ensures { (out.new ≡ put out.old at (entry tag (report_number p)))
        × (result ≡ at + length (entry tag (report_number p))) × (result ≤ at + entry_room) }
{
    if tag == 0 {
        put_bytes(out, at, b" -");
        return at + 2;
    }
    out[at] = b' ';
    put_bytes(out, at + 1, &digits::hex_text(&view::report_bytes(p)));
    at + ENTRY_ROOM
}

fn put_entries(out: &mut [u8], at: usize, n: usize, v: View) -> usize
    requires { (n ≤ nodes) × (at + entry_room * n ≤ length out.old) }
    ensures { (out.new ≡ put out.old at (join n (entry_at v)))
        × (result ≡ at + length (join n (entry_at v))) × (result ≤ at + entry_room * n) }
{
    let mut end = at;
    for i in 0..n {
        end = put_entry(out, end, v.tags[i], v.reports[i]);
    }
    end
}

fn put_feed(out: &mut [u8], at: usize) -> usize
    requires { at + 1 ≤ length out.old }
    ensures { (out.new ≡ put out.old at feed) × (result ≡ at + 1) }
{
    out[at] = b'\n';
    at + 1
}

fn put_short(out: &mut [u8], at: usize, event: u64, word: &[u8], x: u64) -> usize
    requires { (length word.now ≤ word_room) × (at + start_room + 1 ≤ length out.old) }
    ensures { (out.new ≡ put out.old at (start event word.now x ++ feed))
        × (result ≡ at + length (start event word.now x ++ feed)) }
{
    let k = put_start(out, at, event, word, x);
    put_feed(out, k)
}

// Writes the line of an event, or nothing where nothing is printed of it; the other bytes stay.
#[tactic(auto, unfolding(crate::specs::Answer::line))]
pub fn put_line(
    out: &mut [u8],
    at: usize,
    event: u64,
    reply: Option<Printed>,
    n: usize,
    v: View,
) -> usize
    requires { at + room ≤ length out.old }
    ensures { (out.new ≡ put out.old at (line event reply n v))
        × (result ≡ at + length (line event reply n v)) }
{
    let Some(reply) = reply else { return at };
    match reply {
        Printed::Done(c) => put_short(out, at, event, b" done ", c as u64),
        Printed::Scan(c) => {
            let k = put_start(out, at, event, b" scan ", c as u64);
            let e = put_entries(out, k, n.min(NODES), v);
            put_feed(out, e)
        }
        Printed::Spent(c) => put_short(out, at, event, b" spent ", c as u64),
        Printed::No(k) => put_short(out, at, event, b" no ", k as u64),
    }
}
