// What refusal 9 looks at, of one sender: for each writer the tag last heard from it and the writer's last tag, and
// maxtag. A frame is judged on these numbers, apart from the record, which stays as it is.
ghost use Rattle.std.specs.Prelude.{◌≡◌, true, ℕ, ◌≤◌, length};
ghost use Rattle.octets.specs.Word.{words};
ghost use Rattle.view.specs.Size.{nodes};
ghost use Rattle.table.specs.Table.{at, tag_of, heard_of, cells};
ghost use Rattle.step.specs.Stale.{writer_within};
ghost use Rattle.region.specs.Record.{record_size, heard_place, view_in, last_in};
ghost use Rattle.frame_bytes.specs.Marks.{late_by, heard_after, last_after, top_after};

use react_bytes::tables::{heard_in, tag_in};
use record::usable::is_stale_tag;
use region::places::LAST_IN;
use std::array::from_fn;
use view::NODES;
use wire::Message;

// The tags last heard from sender s, for writers 1 to n.
pub fn heard_from(r: &[u8], n: usize, s: usize) -> [u64; NODES]
    requires { (length r.now ≡ record_size) × (n ≤ nodes) × (1 ≤ s) × (s ≤ nodes) }
    ensures { (length result ≡ nodes)
        × ((w : ℕ) → 1 ≤ w → w ≤ n → at result w ≡ heard_of (words cells r.now heard_place) s w) }
{
    from_fn(|i| if i < n { heard_in(r, s, i + 1) } else { 0 })
}

// The last tags of writers 1 to n.
pub fn last_tags(r: &[u8], n: usize) -> [u64; NODES]
    requires { (length r.now ≡ record_size) × (n ≤ nodes) }
    ensures { (length result ≡ nodes)
        × ((w : ℕ) → 1 ≤ w → w ≤ n → at result w ≡ tag_of (view_in r.now last_in) w) }
{
    from_fn(|i| if i < n { tag_in(r, LAST_IN, i + 1) } else { 0 })
}

// Whether a message is refused with 9.
pub fn is_late(heard: &[u64; NODES], last: &[u64; NODES], top: u64, m: Message) -> bool
    requires { writer_within nodes m ≡ true }
    ensures { result ≡ late_by heard.now last.now top m }
{
    match m {
        Message::Value { tag, writer, .. } => is_stale_tag(
            heard[writer - 1],
            last[writer - 1],
            top,
            tag,
        ),
        _ => false,
    }
}

// The tags after a message was handled.
pub fn note(heard: &mut [u64; NODES], last: &mut [u64; NODES], m: Message)
    requires { writer_within nodes m ≡ true }
    ensures { (heard.new ≡ heard_after heard.old m)
        × (last.new ≡ last_after last.old m) }
{
    if let Message::Value { tag, writer, .. } = m {
        heard[writer - 1] = tag;
        last[writer - 1] = last[writer - 1].max(tag);
    }
}

// `maxtag` after it.
pub fn top_after(top: u64, m: Message) -> u64
    ensures { result ≡ top_after top m }
{
    match m {
        Message::Write { tag, .. } | Message::Echo { tag } => top.max(tag),
        _ => top,
    }
}
