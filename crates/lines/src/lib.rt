// The lines of a session: one line of bytes, without its line feed, to the event that it is. specs/Grammar says which
// lines are legal and what they say.
#![tactic(auto)]

ghost use Rattle.std.specs.Prelude.{◌≡◌, ◌≤◌, length};
ghost use Rattle.lines.specs.Grammar.{number_of, report_in, place_of, field_length, tail_of, event_of, first_of};
ghost use Rattle.lines.specs.Grammar.{update_in, scan_in, deliver_in, stop_in};
ghost use Rattle.lines.specs.Grammar.{word as Grammar·word, after as Grammar·after};

use digits::{all_digits, all_hex, hex_bytes};
use outgoing::Extent;
use table::quorum::tolerates;
use view::{REPORT, Report};

// What a line tells a cluster to do: one event.
#[derive(Clone, Copy)]
pub enum Command {
    Update {
        node: usize,
        report: Report,
        extent: Extent,
    },
    Scan {
        node: usize,
        extent: Extent,
    },
    Deliver {
        from: usize,
        to: usize,
        extent: Extent,
    },
    Stop {
        node: usize,
    },
}

// What the first line says: how many nodes, and how many of them may stop.
#[derive(Clone, Copy)]
pub struct Opening {
    pub nodes: usize,
    pub faults: usize,
}

// The hexadecimal digits of a report.
const DIGITS: usize = 2 * REPORT;

// The number that a word of one to four digits says.
#[tactic(auto, unfolding(crate::specs::Grammar::number_of))]
fn read_number(w: &[u8]) -> Option<usize>
    ensures { result ≡ number_of w.now }
{
    if 1 <= w.len() && w.len() <= 4 && all_digits(w) {
        Some(digits::number(w))
    } else {
        None
    }
}

// The report that a word of its hexadecimal digits says.
#[tactic(auto, unfolding(crate::specs::Grammar::report_in))]
fn read_report(w: &[u8]) -> Option<Report>
    ensures { result ≡ report_in w.now }
{
    if w.len() == DIGITS && all_hex(w) {
        Some(view::read_report(&hex_bytes(w)))
    } else {
        None
    }
}

// The place of the first x, or the end.
fn place_of(x: u8, s: &[u8]) -> usize
    ensures { (result ≡ place_of x s.now) × (result ≤ length s.now) }
{
    s.iter().position(|y| *y == x).unwrap_or(s.len())
}

// The bytes of the first field: its space and its word.
fn field_length(t: &[u8]) -> usize
    ensures { (result ≡ field_length t.now) × (result ≤ length t.now) }
{
    match t {
        [b' ', word @ ..] => 1 + place_of(b' ', word),
        _ => 0,
    }
}

// The first field's word.
#[tactic(auto, unfolding(crate::specs::Grammar::word))]
fn word(t: &[u8]) -> &[u8]
    ensures { result.now ≡ Grammar·word t.now }
{
    let end = field_length(t);
    if end == 0 { &t[..0] } else { &t[1..end] }
}

// What comes after the first field.
#[tactic(auto, unfolding(crate::specs::Grammar::after))]
fn after(t: &[u8]) -> &[u8]
    ensures { result.now ≡ Grammar·after t.now }
{
    &t[field_length(t)..]
}

// What comes after an event's numbers: nothing, or `cut m`.
#[tactic(auto, unfolding(crate::specs::Grammar::tail_of))]
fn read_tail(t: &[u8]) -> Option<Extent>
    ensures { result ≡ tail_of t.now }
{
    if t.is_empty() {
        return Some(Extent::Whole);
    }
    let u = after(t);
    let entries = read_number(word(u))?;
    if word(t) == b"cut".as_slice() && after(u).is_empty() {
        Some(Extent::Cut(entries))
    } else {
        None
    }
}

// The events, from what comes after their letter.
fn read_update(t: &[u8]) -> Option<Command>
    ensures { result ≡ update_in t.now }
{
    let u = after(t);
    Some(Command::Update {
        node: read_number(word(t))?,
        report: read_report(word(u))?,
        extent: read_tail(after(u))?,
    })
}

fn read_scan(t: &[u8]) -> Option<Command>
    ensures { result ≡ scan_in t.now }
{
    Some(Command::Scan {
        node: read_number(word(t))?,
        extent: read_tail(after(t))?,
    })
}

fn read_deliver(t: &[u8]) -> Option<Command>
    ensures { result ≡ deliver_in t.now }
{
    let u = after(t);
    Some(Command::Deliver {
        from: read_number(word(t))?,
        to: read_number(word(u))?,
        extent: read_tail(after(u))?,
    })
}

fn read_stop(t: &[u8]) -> Option<Command>
    ensures { result ≡ stop_in t.now }
{
    let node = read_number(word(t))?;
    if after(t).is_empty() {
        Some(Command::Stop { node })
    } else {
        None
    }
}

// The event that a line is; none where it is bad.
#[tactic(auto, unfolding(crate::specs::Grammar::event_of))]
pub fn event(s: &[u8]) -> Option<Command>
    ensures { result ≡ event_of s.now }
{
    let [letter, t @ ..] = s else { return None };
    match letter {
        b'u' => read_update(t),
        b's' => read_scan(t),
        b'd' => read_deliver(t),
        b'x' => read_stop(t),
        _ => None,
    }
}

// What the first line says; nothing where it is bad.
#[tactic(auto, unfolding(crate::specs::Grammar::first_of))]
pub fn first(s: &[u8]) -> Option<Opening>
    ensures { result ≡ first_of s.now }
{
    let end = place_of(b' ', s);
    let t = &s[end..];
    let nodes = read_number(&s[..end])?;
    let faults = read_number(word(t))?;
    if after(t).is_empty() && nodes <= 5 && tolerates(nodes, faults) {
        Some(Opening { nodes, faults })
    } else {
        None
    }
}
