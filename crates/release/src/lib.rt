// A step of a node in the cluster's bytes: refusals 10 and 11 judged, the record kept where the step was done on a copy
// of it, and its entries let out.
#![tactic(auto)]

mod judge;
mod sending;

ghost use Rattle.std.specs.Prelude.{◌≡◌, true, ◌≤◌, length};
ghost use Rattle.octets.specs.Test.{pick};
ghost use Rattle.view.specs.Size.{nodes};
ghost use Rattle.view.specs.View.{no_view};
ghost use Rattle.table.specs.Table.{cells};
ghost use Rattle.record.specs.declared.Node.{Node};
ghost use Rattle.step.specs.Claims.{AllLawful};
ghost use Rattle.step.specs.Step.{listed, messages, started};
ghost use Rattle.region.specs.Channel.{oldest};
ghost use Rattle.region.specs.Record.{record_size, record_of, record_bytes};
ghost use Rattle.block.specs.Block.{take_off};
ghost use Rattle.layout.specs.Layout.{cluster_size, channel, on_block};
ghost use Rattle.layout.specs.Slot.{slot_place};
ghost use Rattle.outgoing.specs.Entries.{entries_of, entries};
ghost use Rattle.outgoing.specs.Outgoing.{shortened, is_cut, may_stop, halt_if, let_out, has_room, released};
ghost use Rattle.outgoing.specs.Forward.{ReceivedAt};
ghost use Rattle.outgoing.specs.Room.{gone_in};

use judge::has_room;
pub use judge::has_spare;
use layout::forward::first_place;
use layout::{faults_in, halt_at, keep_record_at, stopped_nodes, take_off_at};
use outgoing::{Extent, allowance, is_cut};
use sending::{let_handled, let_out};
use step::{Outbox, Sent};

// Whether one node more may stop, where one is to (refusal 10).
pub fn may_cut(b: &[u8], n: usize, cut: bool) -> bool
    requires { (n ≤ nodes) × (length b.now ≡ cluster_size n) }
    ensures { result ≡ pick cut (may_stop n b.now) true }
{
    !cut || stopped_nodes(b, n) < faults_in(b)
}

// How many messages leave the channel from c to itself, where one from a is taken off.
fn gone(a: usize, c: usize) -> usize
    ensures { result ≡ gone_in true a c }
{
    usize::from(a == c)
}

fn halt_if(b: &mut [u8], n: usize, c: usize, cut: bool)
    requires { (n ≤ nodes) × (1 ≤ c) × (cluster_size c ≤ length b.old) }
    ensures { b.new ≡ halt_if cut n c b.old }
{
    if cut {
        halt_at(b, n, c);
    }
}

// What node c sends goes out, after it stopped in a cut. A value that it forwards stands at `from`.
pub fn release(b: &mut [u8], n: usize, a: usize, c: usize, o: Outbox, from: usize, x: Extent)
    requires { (n ≤ nodes) × (1 ≤ a) × (a ≤ n) × (1 ≤ c) × (c ≤ n) × (length b.old ≡ cluster_size n)
        × ReceivedAt n a c o.view o.handler b.old from × AllLawful n o.view (messages o) }
    ensures { b.new
        ≡ let_out n c (shortened x (entries n a o)) (halt_if (is_cut x) n c b.old) }
{
    halt_if(b, n, c, is_cut(x));
    let_out(b, n, a, c, o, from, allowance(x));
}

// The same where only the handler sends, or a begin.
pub fn release_handled(b: &mut [u8], n: usize, a: usize, c: usize, s: Sent, from: usize, x: Extent)
    requires { (n ≤ nodes) × (1 ≤ a) × (a ≤ n) × (1 ≤ c) × (c ≤ n) × (length b.old ≡ cluster_size n)
        × ReceivedAt n a c no_view s b.old from × AllLawful n no_view (listed s) }
    ensures { b.new
        ≡ let_out n c (shortened x (entries_of n a no_view (listed s))) (halt_if (is_cut x) n c b.old) }
{
    halt_if(b, n, c, is_cut(x));
    let_handled(b, n, a, c, s, view::absent(), from, allowance(x));
}

// Whether every node can hold what c sends when it begins an operation (refusal 11): so with any record of c after it.
pub fn can_send(b: &[u8], n: usize, c: usize, sent: Sent, x: Extent) -> bool
    requires { (n ≤ nodes) × (1 ≤ c) × (c ≤ n) × (length b.now ≡ cluster_size n) }
    ensures { (d : Node) → length d.heard ≡ cells
        → result ≡ has_room n c c x d (started d c sent).outbox b.now }
{
    let o = Outbox {
        to: c,
        handler: sent,
        reading: Sent::Nothing,
        comparing: Sent::Nothing,
        view: view::absent(),
    };
    has_room(b, n, c, c, is_cut(x), 0, o, allowance(x))
}

// Node c has handled the oldest message from a, which is taken off; then `r` is its record, and o goes out. Nothing is
// changed where a channel would be full (refusal 11).
pub fn settle_delivery(
    b: &mut [u8],
    n: usize,
    a: usize,
    c: usize,
    r: &[u8],
    o: Outbox,
    x: Extent,
) -> bool
    requires { (n ≤ nodes) × (1 ≤ a) × (a ≤ n) × (1 ≤ c) × (c ≤ n) × (length b.old ≡ cluster_size n)
        × (length r.now ≡ record_size) × (r.now ≡ record_bytes (record_of r.now))
        × ReceivedAt n a c o.view o.handler b.old (slot_place a c (oldest (channel b.old a c)))
        × AllLawful n o.view (messages o) }
    ensures { (result ≡ has_room n a c x (record_of r.now) o (on_block c (take_off a) b.old))
        × (b.new ≡ pick result (released n a c x (record_of r.now) o (on_block c (take_off a)
        b.old)) b.old) }
{
    if !has_room(b, n, a, c, is_cut(x), gone(a, c), o, allowance(x)) {
        return false;
    }
    let from = first_place(b, a, c);
    take_off_at(b, a, c);
    keep_record_at(b, c, r);
    release(b, n, a, c, o, from, x);
    true
}
