// House figures over the bytes of a view: three sums, and the largest of calls waiting.
#![tactic(auto)]

ghost use Rattle.std.specs.Prelude.{◌≡◌, ◌+◌, ◌≤◌, length, eqb, IfOk};
ghost use Rattle.octets.specs.Answer.{returned, refused};
ghost use Rattle.octets.specs.Test.{pick};
ghost use Rattle.octets.specs.Word.{word};
ghost use Rattle.octets.specs.Bytes.{num, part};
ghost use Rattle.view.specs.Size.{nodes, limit, tag_size, report_size, entry_size, view_size};
ghost use Rattle.view.specs.Report.{report_of};
ghost use Rattle.view.specs.View.{entry_ok, view_ok};
ghost use Rattle.figures.specs.Figures.{no_totals, with_report, totals, figures_of, counted, waiting_sum};
ghost use Rattle.figures.specs.Room.{Roomy};

use refusal::Refusal;
use view::{ENTRY, LIMIT, NODES, Report, TAG};

// The four figures: sums, and of calls waiting the largest.
#[derive(Clone, Copy, Default)]
pub struct Totals {
    pub extensions: u32,
    pub lines: u32,
    pub waiting: u32,
    pub wakeups: u32,
}

// The figures, and beside them the plain sum of calls waiting.
#[derive(Clone, Copy)]
pub struct Counted {
    pub totals: Totals,
    pub waiting_sum: u32,
}

// Whether `len` bytes are n entries. The product is not computed, since n may be any number.
pub fn is_long(n: usize, len: usize) -> bool
    ensures { result ≡ eqb len (view_size n) }
{
    len % ENTRY == 0 && len / ENTRY == n
}

// No report counted.
pub fn no_totals() -> Totals
    ensures { result ≡ no_totals }
{
    Totals::default()
}

// One report more.
pub fn with_report(t: Totals, p: Report) -> Totals
    requires { Roomy t }
    ensures { result ≡ with_report t p }
{
    Totals {
        extensions: t.extensions + u32::from(p.extensions),
        lines: t.lines + u32::from(p.lines),
        waiting: t.waiting.max(u32::from(p.waiting)),
        wakeups: t.wakeups + u32::from(p.wakeups),
    }
}

// Where the last byte of a tag stands in it.
const LAST: usize = TAG - 1;

// Whether the entry at a place may stand in a view. A tag whose last byte is not 0 is not 0, so any report may stand
// beside it, and its first byte tells whether it is within its limit: two bytes are read of most entries.
fn is_entry(v: &[u8], at: usize) -> bool
    requires { at + entry_size ≤ length v.now }
    ensures { result ≡ entry_ok limit (word v.now at) (word v.now (at + tag_size)) }
{
    if 0 < v[at + LAST] {
        v[at] < 128
    } else {
        view::entry_ok(LIMIT, v, at)
    }
}

// The count at a place, two bytes.
fn count_at(v: &[u8], at: usize) -> u16
    requires { at + 2 ≤ length v.now }
    ensures { result ≡ num (part v.now at 2) }
{
    u16::from_be_bytes([v[at], v[at + 1]])
}

// The report at a place, each count from its own two bytes: counts that are to be added up are quicker so than by way
// of the report's number.
fn report_at(v: &[u8], at: usize) -> Report
    requires { at + report_size ≤ length v.now }
    ensures { result ≡ report_of (part v.now at report_size) }
{
    Report {
        extensions: count_at(v, at),
        lines: count_at(v, at + 2),
        waiting: count_at(v, at + 4),
        wakeups: count_at(v, at + 6),
    }
}

// The figures over n entries, if each of them may stand in a view. Calls waiting are added up too: then the four
// additions of an entry are one instruction.
fn count_entries(n: usize, v: &[u8]) -> Result<Counted, Refusal>
    requires { (n ≤ nodes) × (view_size n ≤ length v.now) }
    ensures { (counted result
        ≡ pick (view_ok n limit v.now) (returned (totals n v.now)) (refused 7))
        × IfOk result (λ c. c.waiting_sum ≡ waiting_sum n v.now) }
{
    let mut totals = no_totals();
    let mut waiting_sum = 0;
    for i in 0..n {
        let at = ENTRY * i;
        if !is_entry(v, at) {
            return Err(Refusal::Layout);
        }
        let p = report_at(v, at + TAG);
        waiting_sum += u32::from(p.waiting);
        totals = with_report(totals, p);
    }
    Ok(Counted {
        totals,
        waiting_sum,
    })
}

// The figures over a view of n nodes, if it is of that length, n is a number of nodes, and the view is of the layout.
pub fn figures(n: usize, v: &[u8]) -> Result<Counted, Refusal>
    ensures { (counted result ≡ figures_of n v.now) × IfOk result (λ c. c.waiting_sum ≡ waiting_sum n v.now) }
{
    if !is_long(n, v.len()) {
        return Err(Refusal::Length);
    }
    if n < 1 || NODES < n {
        return Err(Refusal::Size);
    }
    count_entries(n, v)
}
