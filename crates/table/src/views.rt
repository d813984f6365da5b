// Views, which hold an entry for each writer, and the square table of the tags heard.
ghost use Rattle.std.specs.Prelude.{◌≡◌, ◌-◌, ◌≤◌};
ghost use Rattle.view.specs.Size.{nodes};
ghost use Rattle.table.specs.Table.{tag_of, put_entry, newest, entry_within, view_within, heard_within};

use crate::CELLS;
use view::{LIMIT, NODES, Report, View, is_none};

pub fn tag_of(v: View, w: usize) -> u64
    requires { (1 ≤ w) × (w ≤ nodes) }
    ensures { result ≡ tag_of v w }
{
    v.tags[w - 1]
}

// The view with another entry for writer w.
pub fn put_entry(v: View, w: usize, t: u64, p: Report) -> View
    requires { (1 ≤ w) × (w ≤ nodes) }
    ensures { result ≡ put_entry v w t p }
{
    let mut u = v;
    u.tags[w - 1] = t;
    u.reports[w - 1] = p;
    u
}

// For each writer the newest report not above t, from its last one and the one held for a tag below t.
pub fn newest_view(t: u64, last: View, held: View) -> View
    ensures { result ≡ newest t last held }
{
    let mut v = held;
    for w in 0..NODES {
        if last.tags[w] <= t {
            v.tags[w] = last.tags[w];
            v.reports[w] = last.reports[w];
        }
    }
    v
}

// One entry's part of `view_within`: as the loops over whole tables, a test without branches.
fn entry_within(t: u64, v: View, w: usize) -> bool
    requires { (1 ≤ w) × (w ≤ nodes) }
    ensures { result ≡ entry_within t v w }
{
    let tag = v.tags[w - 1];
    (tag <= t) & ((1 <= tag) | is_none(v.reports[w - 1]))
}

// Whether no entry of the view is above t and none has a report beside tag 0.
pub fn view_within(t: u64, v: View) -> bool
    ensures { result ≡ view_within t v }
{
    let mut ok = true;
    for w in 0..NODES {
        ok &= entry_within(t, v, w + 1);
    }
    ok
}

// Whether no tag heard is above the limit.
pub fn heard_within(h: &[u64; CELLS]) -> bool
    ensures { result ≡ heard_within h.now }
{
    let mut ok = true;
    for tag in h {
        ok &= *tag <= LIMIT;
    }
    ok
}
