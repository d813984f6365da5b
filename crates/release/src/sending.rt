// The entries of a step, let out to the nodes in turn. What a step sends is lawful, so it is not judged again here.
ghost use Rattle.std.specs.Prelude.{◌≡◌, true, ◌+◌, ◌≤◌, min, length, take};
ghost use Rattle.octets.specs.Loop.{up_to};
ghost use Rattle.view.specs.Size.{nodes};
ghost use Rattle.view.specs.View.{view_bytes};
ghost use Rattle.wire.specs.Layout.{allowed, value_size};
ghost use Rattle.step.specs.Claims.{AllLawful};
ghost use Rattle.step.specs.Step.{listed, messages};
ghost use Rattle.block.specs.Block.{receive};
ghost use Rattle.layout.specs.Layout.{cluster_size, on_block};
ghost use Rattle.layout.specs.Slot.{slot_from, IsSlot};
ghost use Rattle.outgoing.specs.Entries.{addressed, entries_of, entries};
ghost use Rattle.outgoing.specs.Outgoing.{let_out};
ghost use Rattle.outgoing.specs.Forward.{ReceivedAt};

use decide::is_forward;
use layout::forward::forward_at;
use layout::receive_at;
use outgoing::entries::{is_answer, left_after, left_past, slot_of};
use step::{Outbox, Sent};
use view::View;
use wire::{Message, VALUE};

// The first `left` entries of one message of node c, an answer going to node a.
fn let_message(b: &mut [u8], n: usize, a: usize, c: usize, m: Message, v: View, left: usize)
    requires { (n ≤ nodes) × (1 ≤ a) × (a ≤ n) × (1 ≤ c) × (c ≤ n) × (length b.old ≡ cluster_size n)
        × (allowed n m (view_bytes n v) ≡ true) }
    ensures { b.new ≡ let_out n c (take left (addressed n a v m)) b.old }
{
    let s = slot_of(n, m, v);
    if !is_answer(m) {
        for k in 0..left.min(n) {
            receive_at(b, c, k + 1, &s);
        }
    } else if 0 < left {
        receive_at(b, c, a, &s);
    }
}

// Inlined: one view less on the stack.
#[inline(always)]
fn let_sent(b: &mut [u8], n: usize, a: usize, c: usize, s: Sent, v: View, left: usize)
    requires { (n ≤ nodes) × (1 ≤ a) × (a ≤ n) × (1 ≤ c) × (c ≤ n) × (length b.old ≡ cluster_size n)
        × AllLawful n v (listed s) }
    ensures { b.new ≡ let_out n c (take left (entries_of n a v (listed s))) b.old }
{
    match s {
        Sent::Nothing => {}
        Sent::One(m) => let_message(b, n, a, c, m, v, left),
        Sent::Two(m, k) => {
            let_message(b, n, a, c, m, v, left);
            let_message(b, n, a, c, k, v, left_after(n, m, left));
        }
    }
}

// The first `left` entries of the value that node c forwards: it stands in a slot, at `from`, and goes from there to
// each node in turn.
fn let_forward(b: &mut [u8], n: usize, c: usize, from: usize, left: usize)
    requires { (n ≤ nodes) × (1 ≤ c) × (c ≤ n) × (length b.old ≡ cluster_size n) × IsSlot n from }
    ensures { b.new ≡ up_to (min left n)
        (λ i. on_block (i + 1) (receive c (slot_from b.old from value_size))) b.old }
{
    for k in 0..left.min(n) {
        forward_at(b, from, VALUE, c, k + 1);
    }
}

// The first `left` entries of what the handler of a message sends; a value that it forwards stands at `from`.
pub(crate) fn let_handled(
    b: &mut [u8],
    n: usize,
    a: usize,
    c: usize,
    s: Sent,
    v: View,
    from: usize,
    left: usize,
)
    requires { (n ≤ nodes) × (1 ≤ a) × (a ≤ n) × (1 ≤ c) × (c ≤ n) × (length b.old ≡ cluster_size n)
        × ReceivedAt n a c v s b.old from × AllLawful n v (listed s) }
    ensures { b.new ≡ let_out n c (take left (entries_of n a v (listed s))) b.old }
{
    if is_forward(s) {
        let_forward(b, n, c, from, left);
    } else {
        let_sent(b, n, a, c, s, v, left);
    }
}

// The first `left` entries of a step.
pub(crate) fn let_out(
    b: &mut [u8],
    n: usize,
    a: usize,
    c: usize,
    o: Outbox,
    from: usize,
    left: usize,
)
    requires { (n ≤ nodes) × (1 ≤ a) × (a ≤ n) × (1 ≤ c) × (c ≤ n) × (length b.old ≡ cluster_size n)
        × ReceivedAt n a c o.view o.handler b.old from × AllLawful n o.view (messages o) }
    ensures { b.new ≡ let_out n c (take left (entries n a o)) b.old }
{
    let second = left_past(n, o.handler, left);
    let third = left_past(n, o.reading, second);
    let_handled(b, n, a, c, o.handler, o.view, from, left);
    let_sent(b, n, a, c, o.reading, o.view, second);
    let_sent(b, n, a, c, o.comparing, o.view, third);
}
