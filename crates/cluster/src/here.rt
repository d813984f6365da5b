// The record of a node where it lies in the cluster's bytes: an operation judged and begun there, a message judged and
// handled, and what comes next.
ghost use Rattle.std.specs.Prelude.{◌≡◌, true, ◌+◌, ◌<◌, ◌≤◌, length, take};
ghost use Rattle.octets.specs.Bytes.{put};
ghost use Rattle.view.specs.Size.{limit, nodes, view_size};
ghost use Rattle.view.specs.View.{view_of};
ghost use Rattle.wire.specs.Codec.{view_at};
ghost use Rattle.wire.specs.declared.Message.TheVariants.{Read};
ghost use Rattle.record.specs.Usable.{usable, is_open, full};
ghost use Rattle.step.specs.Move.{begun};
ghost use Rattle.step.specs.React.{react};
ghost use Rattle.step.specs.Stale.{stale_message, writer_within};
ghost use Rattle.step.specs.Step.{started};
ghost use Rattle.step.specs.declared.Sent.TheVariants.{One};
ghost use Rattle.region.specs.Channel.{first};
ghost use Rattle.region.specs.Record.{record_size, record_bytes};
ghost use Rattle.block.specs.Block.{record_in, take_off};
ghost use Rattle.layout.specs.Layout.{cluster_size, block, node, channel, on_block};
ghost use Rattle.react_bytes.specs.Handled.{view_there};
ghost use Rattle.step_bytes.specs.Moved.{effect, followed, plan_tag, Leads};
ghost use Rattle.cluster.specs.First.{react_to, record_at};

use block::{BLOCK, RECORD_PLACE};
use layout::{BLOCKS_PLACE, first_at, take_off_at};
use octets::put_bytes;
use react_bytes::{is_stale_in, react_in};
use record::Operation;
use region::places::RECORD;
use step::Sent;
use step_bytes::{Effect, Plan, ask_in, asked_in, follow_in, is_full_in, is_open_in, plan_in};
use view::{ENTRY, VIEW};
use wire::{GOOD_HEAD, Message};
use wire_parse::views::is_good;

// Where the record of node c stands.
fn record_at(c: usize) -> usize
    requires { (1 ≤ c) × (c ≤ nodes) }
    ensures { result ≡ record_at c }
{
    BLOCKS_PLACE + BLOCK * (c - 1) + RECORD_PLACE
}

// The record of node c.
fn record_here(b: &[u8], c: usize) -> &[u8]
    requires { (1 ≤ c) × (c ≤ nodes) × (cluster_size c ≤ length b.now) }
    ensures { (length result.now ≡ record_size) × (result.now ≡ record_in (block b.now c)) }
{
    let at = record_at(c);
    &b[at..at + RECORD]
}

// Whether an operation is open at node c (refusal 5).
pub(crate) fn is_open_at(b: &[u8], c: usize) -> bool
    requires { (1 ≤ c) × (c ≤ nodes) × (cluster_size c ≤ length b.now) }
    ensures { result ≡ is_open (node b.now c).wait }
{
    is_open_in(record_here(b, c))
}

// Whether fewer than five request numbers are left at node c (refusal 6).
pub(crate) fn is_full_at(b: &[u8], c: usize) -> bool
    requires { (1 ≤ c) × (c ≤ nodes) × (cluster_size c ≤ length b.now) }
    ensures { result ≡ full (node b.now c) }
{
    is_full_in(record_here(b, c))
}

// What node c will send when it begins an operation.
pub(crate) fn asked_at(b: &[u8], c: usize) -> Sent
    requires { (1 ≤ c) × (c ≤ nodes) × (cluster_size c ≤ length b.now) × ((node b.now c).request ≤ limit) }
    ensures { result ≡ One (Read ((node b.now c).request + 1)) }
{
    asked_in(record_here(b, c))
}

// Node c begins an operation.
pub(crate) fn ask_at(b: &mut [u8], c: usize, o: Operation)
    requires { (1 ≤ c) × (c ≤ nodes) × (cluster_size c ≤ length b.old) × ((node b.old c).request ≤ limit) }
    ensures { b.new
        ≡ put b.old (record_at c) (record_bytes (begun (node b.old c) o).node) }
{
    let at = record_at(c);
    ask_in(&mut b[at..at + RECORD], o);
}

// Whether a message from a is refused with 9 by node c.
pub(crate) fn is_stale_at(b: &[u8], a: usize, c: usize, m: Message) -> bool
    requires { (1 ≤ a) × (a ≤ nodes) × (1 ≤ c) × (c ≤ nodes) × (cluster_size c ≤ length b.now)
        × (writer_within nodes m ≡ true) }
    ensures { result ≡ stale_message (node b.now c) a m }
{
    is_stale_in(record_here(b, c), a, m)
}

// Node c handles a message from a; `v` has the view of a good one. What is sent is the answer.
fn react_at(b: &mut [u8], n: usize, a: usize, c: usize, m: Message, v: &[u8]) -> Sent
    requires { (n ≤ nodes) × (1 ≤ a) × (a ≤ nodes) × (1 ≤ c) × (c ≤ nodes) × (cluster_size c ≤ length b.old)
        × (view_there n m v.now ≡ true) × (writer_within nodes m ≡ true) }
    ensures { (result ≡ (react (node b.old c) a m (view_of n v.now)).outbox.handler)
        × (b.new ≡ put b.old (record_at c)
        (record_bytes (react (node b.old c) a m (view_of n v.now)).node)) }
{
    let at = record_at(c);
    react_in(&mut b[at..at + RECORD], n, a, m, v)
}

// The bytes of the view in the oldest message from a to c: the first n entries of the answer.
fn first_view(b: &[u8], n: usize, a: usize, c: usize) -> [u8; VIEW]
    requires { (n ≤ nodes) × (1 ≤ a) × (a ≤ nodes) × (1 ≤ c) × (cluster_size c ≤ length b.now) }
    ensures { (length result ≡ view_size nodes)
        × (take (view_size n) result ≡ view_at n (first (channel b.now a c))) }
{
    let mut v = [0u8; VIEW];
    let s = first_at(b, a, c);
    put_bytes(&mut v, 0, &s[GOOD_HEAD..GOOD_HEAD + ENTRY * n]);
    v
}

// Node c takes the oldest message from a, which is m, off and handles it. What is sent is the answer.
pub(crate) fn take_first(b: &mut [u8], n: usize, a: usize, c: usize, m: Message) -> Sent
    requires { (n ≤ nodes) × (1 ≤ a) × (a ≤ nodes) × (1 ≤ c) × (c ≤ nodes) × (cluster_size c ≤ length b.old)
        × (writer_within nodes m ≡ true) }
    ensures { (result ≡ (react_to n a c m b.old).outbox.handler)
        × (b.new ≡ put (on_block c (take_off a) b.old) (record_at c)
        (record_bytes (react_to n a c m b.old).node)) }
{
    if is_good(m) {
        let v = first_view(b, n, a, c);
        take_off_at(b, a, c);
        react_at(b, n, a, c, m, &v[..ENTRY * n])
    } else {
        take_off_at(b, a, c);
        react_at(b, n, a, c, m, &[])
    }
}

// What comes next at node c.
pub(crate) fn plan_at(b: &[u8], n: usize, f: usize, c: usize) -> Plan
    requires { (1 ≤ c) × (c ≤ nodes) × (cluster_size c ≤ length b.now) × ((node b.now c).n ≡ n) × (n ≤ nodes)
        × (f < n) × (usable (node b.now c) ≡ true) }
    ensures { Leads f result (node b.now c) }
{
    plan_in(record_here(b, c), n, f)
}

// A plan is followed at node c, after `sent` went to node a.
pub(crate) fn follow_at(b: &mut [u8], n: usize, a: usize, c: usize, sent: Sent, p: Plan) -> Effect
    requires { (1 ≤ c) × (c ≤ nodes) × (cluster_size c ≤ length b.old) × ((node b.old c).n ≡ n) × (n ≤ nodes)
        × ((node b.old c).request ≤ limit) × (plan_tag p ≤ limit)
        × (record_in (block b.old c) ≡ record_bytes (node b.old c)) }
    ensures { (result ≡ effect (followed p (started (node b.old c) a sent)))
        × (b.new ≡ put b.old (record_at c)
        (record_bytes (followed p (started (node b.old c) a sent)).node)) }
{
    let at = record_at(c);
    follow_in(&mut b[at..at + RECORD], n, a, sent, p)
}
