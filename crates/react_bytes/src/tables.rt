// The tables of a record in its bytes: one entry read or written, and the newest reports of all writers.
ghost use Rattle.std.specs.Prelude.{◌≡◌, ◌+◌, ◌<◌, ◌≤◌, length};
ghost use Rattle.octets.specs.Bytes.{part, put};
ghost use Rattle.octets.specs.Word.{words};
ghost use Rattle.view.specs.Size.{nodes, entry_size, view_size};
ghost use Rattle.view.specs.View.{entry_bytes, view_bytes};
ghost use Rattle.table.specs.Table.{tag_of, heard_of, newest, cells};
ghost use Rattle.region.specs.Record.{record_size, heard_place, view_in, last_in, atmax_in, views};
ghost use Rattle.react_bytes.specs.Handled.{entry_place, put_where, newest_entry};

use octets::{WORD, get_word, put_bytes, put_word};
use region::places::{ATMAX_PLACE, HEARD_PLACE, LAST_IN, LAST_PLACE, VIEWS_PLACE};
use view::{ENTRY, NODES, Report, TAG, VIEW, report_bytes};

// The tag of writer w in view i.
pub fn tag_in(r: &[u8], i: usize, w: usize) -> u64
    requires { (length r.now ≡ record_size) × (i < views) × (1 ≤ w) × (w ≤ nodes) }
    ensures { result ≡ tag_of (view_in r.now i) w }
{
    get_word(r, VIEWS_PLACE + VIEW * i + ENTRY * (w - 1))
}

// The last tag heard from sender s for writer w.
pub fn heard_in(r: &[u8], s: usize, w: usize) -> u64
    requires { (length r.now ≡ record_size) × (1 ≤ s) × (s ≤ nodes) × (1 ≤ w) × (w ≤ nodes) }
    ensures { result ≡ heard_of (words cells r.now heard_place) s w }
{
    get_word(r, HEARD_PLACE + WORD * ((s - 1) * NODES + (w - 1)))
}

fn put_entry(r: &mut [u8], i: usize, w: usize, t: u64, p: Report)
    requires { (length r.old ≡ record_size) × (i < views) × (1 ≤ w) × (w ≤ nodes) }
    ensures { r.new ≡ put r.old (entry_place i w) (entry_bytes t p) }
{
    let at = VIEWS_PLACE + VIEW * i + ENTRY * (w - 1);
    put_word(r, at, t);
    put_bytes(r, at + TAG, &report_bytes(p));
}

// Another entry of writer w in view i, where the flag says so.
pub fn put_where(flag: bool, r: &mut [u8], i: usize, w: usize, t: u64, p: Report)
    requires { (length r.old ≡ record_size) × (i < views) × (1 ≤ w) × (w ≤ nodes) }
    ensures { r.new ≡ put_where flag i w t p r.old }
{
    if flag {
        put_entry(r, i, w, t, p);
    }
}

// Where the newest entry of writer w with a tag at most t stands: its last one if that is not above t, else the one
// held.
fn newest_at(r: &[u8], t: u64, w: usize) -> usize
    requires { (length r.now ≡ record_size) × (1 ≤ w) × (w ≤ nodes) }
    ensures { (result + entry_size ≤ record_size)
        × (part r.now result entry_size
        ≡ newest_entry t (view_in r.now last_in) (view_in r.now atmax_in) w) }
{
    let at = ENTRY * (w - 1);
    if tag_in(r, LAST_IN, w) <= t {
        LAST_PLACE + at
    } else {
        ATMAX_PLACE + at
    }
}

// Writes these entries into `out`, that of writer 1 first.
fn put_newest(r: &[u8], t: u64, out: &mut [u8])
    requires { (length r.now ≡ record_size) × (length out.old ≡ view_size nodes) }
    ensures { out.new
        ≡ view_bytes nodes (newest t (view_in r.now last_in) (view_in r.now atmax_in)) }
{
    for i in 0..NODES {
        let x = newest_at(r, t, i + 1);
        put_bytes(out, ENTRY * i, &r[x..x + ENTRY]);
    }
}

// For each writer the newest report not above t, from its last one and the one held: the bytes of this view.
pub fn newest_in(r: &[u8], t: u64) -> [u8; VIEW]
    requires { length r.now ≡ record_size }
    ensures { result
        ≡ view_bytes nodes (newest t (view_in r.now last_in) (view_in r.now atmax_in)) }
{
    let mut v = [0u8; VIEW];
    put_newest(r, t, &mut v);
    v
}
