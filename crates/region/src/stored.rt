// The record of a node in its own run of bytes: its views, and the whole of it.
ghost use Rattle.std.specs.Prelude.{◌≡◌, ◌<◌, ◌≤◌, length, ◌++◌};
ghost use Rattle.octets.specs.Bytes.{put};
ghost use Rattle.octets.specs.Word.{word_bytes};
ghost use Rattle.view.specs.Size.{nodes};
ghost use Rattle.view.specs.View.{view_bytes, first_of};
ghost use Rattle.region.specs.Record.{record_size, n_place, heard_place, last_in, views, view_place};
ghost use Rattle.region.specs.Record.{head_in, views_bytes, view_in, record_bytes};

use crate::head::{Head, save_head};
use crate::places::{ATMAX_IN, ATROUND_IN, HEARD_PLACE, KEPT_IN, LAST_IN, VIEWS_PLACE};
use record::Node;
use view::{NODES, VIEW, View};

// The first n places of view i of the record.
pub fn load_view(b: &[u8], i: usize, n: usize) -> View
    requires { (length b.now ≡ record_size) × (i < views) × (n ≤ nodes) }
    ensures { result ≡ first_of n (view_in b.now i) }
{
    let at = VIEWS_PLACE + VIEW * i;
    view::read_view(n, &b[at..at + VIEW])
}

// Writes view i of the record.
pub fn save_view(b: &mut [u8], i: usize, v: View)
    requires { (length b.old ≡ record_size) × (i < views) }
    ensures { b.new ≡ put b.old (view_place i) (view_bytes nodes v) }
{
    let at = VIEWS_PLACE + VIEW * i;
    view::write_view(NODES, v, &mut b[at..at + VIEW]);
}

fn save_views(b: &mut [u8], c: Node)
    requires { length b.old ≡ record_size }
    ensures { b.new ≡ put b.old (view_place last_in) (views_bytes c) }
{
    save_view(b, LAST_IN, c.last);
    save_view(b, ATMAX_IN, c.atmax);
    save_view(b, ATROUND_IN, c.atround);
    save_view(b, KEPT_IN, c.keptview);
}

// Writes the table of tags heard and the views.
fn save_tables(b: &mut [u8], c: Node)
    requires { length b.old ≡ record_size }
    ensures { b.new ≡ put b.old heard_place (word_bytes c.heard ++ views_bytes c) }
{
    // A copy: lent out of the record, the whole of that would lie on the stack.
    let heard = c.heard;
    octets::put_words(b, HEARD_PLACE, &heard);
    save_views(b, c);
}

// The head of a record by value.
fn head_in(c: Node) -> Head
    ensures { result ≡ head_in c }
{
    Head {
        n: c.n as u64,
        f: c.f as u64,
        own: c.own as u64,
        maxtag: c.maxtag,
        request: c.request,
        kept: c.kept,
        wait: c.wait,
    }
}

// Writes the record over the bytes.
pub fn save(b: &mut [u8], c: Node)
    requires { length b.old ≡ record_size }
    ensures { b.new ≡ put b.old n_place (record_bytes c) }
{
    save_head(b, head_in(c));
    save_tables(b, c);
}
