// A node's report, and a view: a tag and a report for each of up to sixteen nodes. Both by value and in bytes.
#![tactic(auto)]

ghost use Rattle.std.specs.Prelude.{◌≡◌, ◌+◌, ◌≤◌, length};
ghost use Rattle.octets.specs.Bytes.{put};
ghost use Rattle.octets.specs.Word.{word};
ghost use Rattle.view.specs.Size.{nodes, tag_size, report_size, entry_size, view_size};
ghost use Rattle.view.specs.Report.{no_report, is_none, report_bytes, report_number, report_of, report_from};
ghost use Rattle.view.specs.View.{no_view, view_bytes, view_of, first_of, entry_ok, view_ok};

use octets::WORD;

// The most nodes; the greatest tag and request number, 2^63 - 1.
pub const NODES: usize = 16;

pub const LIMIT: u64 = 9223372036854775807;

// The bytes of a tag, of a report, of a view's entry, which is a tag and a report, and of a whole view.
pub const TAG: usize = WORD;

pub const REPORT: usize = 8;

pub const ENTRY: usize = TAG + REPORT;

pub const VIEW: usize = ENTRY * NODES;

// What one node reports: document 01's report, four counts. The last is the first in memory, so that there a report
// lies as its number does.
#[derive(Clone, Copy, PartialEq, Eq, Default)]
pub struct Report {
    pub wakeups: u16,
    pub waiting: u16,
    pub lines: u16,
    pub extensions: u16,
}

// A tag and a report for each of up to sixteen nodes; tag 0 and a zero report mean no report.
#[derive(Clone, Copy)]
pub struct View {
    pub tags: [u64; NODES],
    pub reports: [Report; NODES],
}

pub fn none() -> Report
    ensures { result ≡ no_report }
{
    Report::default()
}

pub fn is_none(p: Report) -> bool
    ensures { result ≡ is_none p }
{
    p == none()
}

pub fn absent() -> View
    ensures { result ≡ no_view }
{
    View {
        tags: [0; NODES],
        reports: [none(); NODES],
    }
}

// A report as one number, that of its eight bytes, and back: quicker than byte by byte.
pub fn report_number(p: Report) -> u64
    ensures { result ≡ report_number p }
{
    (u64::from(p.extensions) << 48)
        + (u64::from(p.lines) << 32)
        + (u64::from(p.waiting) << 16)
        + u64::from(p.wakeups)
}

pub fn report_from(x: u64) -> Report
    ensures { result ≡ report_from x }
{
    Report {
        extensions: (x >> 48) as u16,
        lines: (x >> 32 & 0xffff) as u16,
        waiting: (x >> 16 & 0xffff) as u16,
        wakeups: (x & 0xffff) as u16,
    }
}

// The report that eight bytes are.
pub fn read_report(b: &[u8]) -> Report
    requires { length b.now ≡ report_size }
    ensures { result ≡ report_of b.now }
{
    report_from(octets::number8(b))
}

// The eight bytes of a report.
pub fn report_bytes(p: Report) -> [u8; REPORT]
    ensures { result ≡ report_bytes p }
{
    report_number(p).to_be_bytes()
}

// Whether the entry at a place may stand in a view whose tags are at most `top`. The report counts beside tag 0 alone,
// and is not read elsewhere.
pub fn entry_ok(top: u64, b: &[u8], at: usize) -> bool
    requires { at + entry_size ≤ length b.now }
    ensures { result ≡ entry_ok top (word b.now at) (word b.now (at + tag_size)) }
{
    let tag = octets::get_word(b, at);
    if tag == 0 {
        octets::get_word(b, at + TAG) == 0
    } else {
        tag <= top
    }
}

// Whether each of n entries may stand in a view whose tags are at most `top`.
pub fn view_ok(n: usize, top: u64, b: &[u8]) -> bool
    requires { view_size n ≤ length b.now }
    ensures { result ≡ view_ok n top b.now }
{
    for i in 0..n {
        if !entry_ok(top, b, ENTRY * i) {
            return false;
        }
    }
    true
}

// The view that n entries are, absent beyond them.
pub fn read_view(n: usize, b: &[u8]) -> View
    requires { (n ≤ nodes) × (view_size n ≤ length b.now) }
    ensures { result ≡ view_of n b.now }
{
    let mut v = absent();
    for i in 0..n {
        let at = ENTRY * i;
        v.tags[i] = octets::get_word(b, at);
        v.reports[i] = read_report(&b[at + TAG..at + ENTRY]);
    }
    v
}

// The first n places of a view, and nothing past them.
pub fn first_of(n: usize, v: View) -> View
    requires { n ≤ nodes }
    ensures { result ≡ first_of n v }
{
    // Not by `copy_from_slice`, which calls memmove where the compiler does not know the length.
    let mut first = absent();
    for i in 0..n {
        first.tags[i] = v.tags[i];
        first.reports[i] = v.reports[i];
    }
    first
}

// Writes the first n entries of a view at the front of `out`.
pub fn write_view(n: usize, v: View, out: &mut [u8])
    requires { (n ≤ nodes) × (view_size n ≤ length out.old) }
    ensures { out.new ≡ put out.old 0 (view_bytes n v) }
{
    for i in 0..n {
        let at = ENTRY * i;
        octets::put_word(out, at, v.tags[i]);
        octets::put_bytes(out, at + TAG, &report_bytes(v.reports[i]));
    }
}

// The bytes of a view's places; those of n nodes are the first `view_size n`.
pub fn bytes(v: View) -> [u8; VIEW]
    ensures { result ≡ view_bytes nodes v }
{
    let mut out = [0u8; VIEW];
    write_view(NODES, v, &mut out);
    out
}
