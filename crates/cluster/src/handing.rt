// A message handed to a node. Where no channel can come to be full the step is done where the record lies; else on a
// copy of its bytes, which is written where nothing is refused.
ghost use Rattle.std.specs.Prelude.{◌≡◌, true, ◌≤◌, length};
ghost use Rattle.view.specs.Size.{nodes};
ghost use Rattle.view.specs.View.{view_of};
ghost use Rattle.wire.specs.Codec.{view_at};
ghost use Rattle.step.specs.Allowed.{lawful};
ghost use Rattle.step.specs.Move.{message_step};
ghost use Rattle.step.specs.Stale.{writer_within};
ghost use Rattle.region.specs.Channel.{first};
ghost use Rattle.region.specs.Record.{record_size, record_bytes};
ghost use Rattle.block.specs.Block.{take_off};
ghost use Rattle.layout.specs.Layout.{cluster_size, faults_in, node, channel, on_block};
ghost use Rattle.outgoing.specs.Room.{spare};
ghost use Rattle.events.specs.Event.{settle, hand_over};
ghost use Rattle.cluster.specs.First.{react_first, Oldest};
ghost use Rattle.events.specs.Outcome.{Tells};
ghost use Rattle.events.specs.Ready.{Ready};

use crate::here::{follow_at, is_stale_at, plan_at, take_first};
use events::{Reply, answered, given};
use layout::forward::first_place;
use layout::{copy_record_at, faults_in, first_at};
use outgoing::{Extent, is_cut};
use react_bytes::{is_stale_in, react_in};
use refusal::Refusal;
use region::places::RECORD;
use release::{has_spare, may_cut, release, release_handled, settle_delivery};
use step::{Ending, Sent};
use step_bytes::{follow_in, is_rest, plan_in};
use view::{ENTRY, absent};
use wire::{GOOD_HEAD, Message};

// The oldest message from a, which is m, is handled on a copy of the record of node c. What is sent is the answer.
fn handle_first(b: &[u8], n: usize, a: usize, c: usize, m: Message, r: &mut [u8]) -> Sent
    requires { (n ≤ nodes) × (1 ≤ a) × (a ≤ n) × (1 ≤ c) × (c ≤ n) × (length b.now ≡ cluster_size n)
        × (length r.old ≡ record_size) × (writer_within nodes m ≡ true) }
    ensures { (result ≡ (react_first n a c m r.old b.now).outbox.handler)
        × (r.new ≡ record_bytes (react_first n a c m r.old b.now).node) }
{
    let s = first_at(b, a, c);
    react_in(r, n, a, m, &s[GOOD_HEAD..GOOD_HEAD + ENTRY * n])
}

// Hands the oldest message from a, which is m, to node c, or refuses with 9, 10, 11. `r` is the room for a copy of the
// record of c, on which the step is done.
fn hand_on<'a>(
    b: &'a mut [u8],
    n: usize,
    a: usize,
    c: usize,
    m: Message,
    x: Extent,
    r: &'a mut [u8],
) -> Reply
    requires { Ready n a c b.old × (lawful n m (view_of n (view_at n (first (channel b.old a c)))) ≡ true)
        × (length r.old ≡ record_size) × Oldest n a c m b.old }
    ensures { Tells result b.new
        (hand_over n a c x b.old (first (channel b.old a c)) m) }
{
    copy_record_at(b, c, r);
    if is_stale_in(r, a, m) {
        return Err(Refusal::Value);
    }
    if !may_cut(b, n, is_cut(x)) {
        return Err(Refusal::Stops);
    }
    let sent = handle_first(b, n, a, c, m, r);
    let p = plan_in(r, n, faults_in(b));
    let e = follow_in(r, n, a, sent, p);
    let room = settle_delivery(b, n, a, c, r, e.outbox, x);
    answered(room, is_cut(x), e.ending, e.view)
}

// Node c handles the oldest message from a, which is m, where its record lies, and lets out what it sends.
fn step_here(b: &mut [u8], n: usize, a: usize, c: usize, m: Message, x: Extent) -> Reply
    requires { Ready n a c b.old × (lawful n m (view_of n (view_at n (first (channel b.old a c)))) ≡ true)
        × Oldest n a c m b.old × (spare n c b.old ≡ true) }
    ensures { Tells result b.new (settle n a c x
        (message_step (faults_in b.old) (node b.old c) a m
        (view_of n (view_at n (first (channel b.old a c)))))
        (on_block c (take_off a) b.old) b.old) }
{
    let from = first_place(b, a, c);
    let f = faults_in(b);
    let sent = take_first(b, n, a, c, m);
    let p = plan_at(b, n, f, c);
    if is_rest(p) {
        release_handled(b, n, a, c, sent, from, x);
        return given(false, Ending::None, absent());
    }
    let e = follow_at(b, n, a, c, sent, p);
    release(b, n, a, c, e.outbox, from, x);
    given(is_cut(x), e.ending, e.view)
}

// Hands it on a copy of the record, which is made here.
// Not inlined, nor is the next: a delivery takes the stack of one of the two.
#[inline(never)]
fn hand_apart(b: &mut [u8], n: usize, a: usize, c: usize, m: Message, x: Extent) -> Reply
    requires { Ready n a c b.old × (lawful n m (view_of n (view_at n (first (channel b.old a c)))) ≡ true)
        × Oldest n a c m b.old }
    ensures { Tells result b.new
        (hand_over n a c x b.old (first (channel b.old a c)) m) }
{
    let mut r = [0u8; RECORD];
    hand_on(b, n, a, c, m, x, &mut r)
}

// Does so where no channel can come to be full: the step is done where the record lies.
#[inline(never)]
fn hand_here(b: &mut [u8], n: usize, a: usize, c: usize, m: Message, x: Extent) -> Reply
    requires { Ready n a c b.old × (lawful n m (view_of n (view_at n (first (channel b.old a c)))) ≡ true)
        × Oldest n a c m b.old × (spare n c b.old ≡ true) }
    ensures { Tells result b.new
        (hand_over n a c x b.old (first (channel b.old a c)) m) }
{
    if is_stale_at(b, a, c, m) {
        return Err(Refusal::Value);
    }
    if !may_cut(b, n, is_cut(x)) {
        return Err(Refusal::Stops);
    }
    step_here(b, n, a, c, m, x)
}

// Hands the oldest message from a, which is m, to node c, or refuses with 9, 10, 11.
pub(crate) fn hand_over(b: &mut [u8], n: usize, a: usize, c: usize, m: Message, x: Extent) -> Reply
    requires { Ready n a c b.old × (lawful n m (view_of n (view_at n (first (channel b.old a c)))) ≡ true)
        × Oldest n a c m b.old }
    ensures { Tells result b.new
        (hand_over n a c x b.old (first (channel b.old a c)) m) }
{
    if has_spare(b, n, c) {
        hand_here(b, n, a, c, m, x)
    } else {
        hand_apart(b, n, a, c, m, x)
    }
}
