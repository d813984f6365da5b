// What a step lets out: the slot of each message, and how many entries go to a node.
ghost use Rattle.std.specs.Prelude.{◌≡◌, true, ℕ, ◌-◌, ◌≤◌, length, take};
ghost use Rattle.octets.specs.Bytes.{put};
ghost use Rattle.view.specs.Size.{nodes, is_size};
ghost use Rattle.view.specs.declared.View.{View};
ghost use Rattle.step.specs.Step.{listed};
ghost use Rattle.view.specs.View.{view_bytes};
ghost use Rattle.wire.specs.Layout.{encode, allowed};
ghost use Rattle.wire.specs.declared.Message.TheVariants.{Good};
ghost use Rattle.region.specs.Channel.{slot_size};
ghost use Rattle.outgoing.specs.Entries.{is_answer, addressed, entries_of, entries, go_to, slot};

use region::places::SLOT;
use step::{Outbox, Sent};
use view::{ENTRY, VIEW, View};
use wire::Message;

// Writes a good message with its view at the front of s.
fn write_held(n: usize, tag: u64, v: View, s: &mut [u8])
    requires { (n ≤ nodes) × (length s.old ≡ slot_size) }
    ensures { s.new ≡ put s.old 0 (encode (Good tag) (view_bytes n v)) }
{
    let mut w = [0u8; VIEW];
    view::write_view(n, v, &mut w);
    // A slot has room for the longest message, so it is not refused.
    let _ = wire_put::good(s, tag, &w[..ENTRY * n]);
}

// Writes a message that is known to be allowed, with the view that a good message carries, at the front of s. No other
// needs the view's bytes.
fn write_slot(n: usize, m: Message, v: View, s: &mut [u8])
    requires { (is_size n ≡ true) × (length s.old ≡ slot_size) × (allowed n m (view_bytes n v) ≡ true) }
    ensures { s.new ≡ put s.old 0 (encode m (view_bytes n v)) }
{
    match m {
        Message::Good { tag } => write_held(n, tag, v, s),
        _ => {
            wire_put::short(m, s);
        }
    }
}

// The slot of a message that is known to be allowed.
pub fn slot_of(n: usize, m: Message, v: View) -> [u8; SLOT]
    requires { (is_size n ≡ true) × (allowed n m (view_bytes n v) ≡ true) }
    ensures { result ≡ slot n m v }
{
    let mut s = [0u8; SLOT];
    write_slot(n, m, v, &mut s);
    s
}

// Whether the message is an answer, which goes to one node.
pub fn is_answer(m: Message) -> bool
    ensures { result ≡ is_answer m }
{
    matches!(m, Message::ReadAnswer { .. } | Message::WriteAnswer { .. })
}

// How many of `left` entries are left after those of a message.
pub fn left_after(n: usize, m: Message, left: usize) -> usize
    ensures { (a : ℕ) (v : View) → result ≡ left - length (addressed n a v m) }
{
    if is_answer(m) {
        left.saturating_sub(1)
    } else {
        left.saturating_sub(n)
    }
}

pub fn left_past(n: usize, s: Sent, left: usize) -> usize
    ensures { (a : ℕ) (v : View) → result ≡ left - length (entries_of n a v (listed s)) }
{
    match s {
        Sent::Nothing => left,
        Sent::One(m) => left_after(n, m, left),
        Sent::Two(m, k) => left_after(n, k, left_after(n, m, left)),
    }
}

// How many of the first `left` entries of a message go to node b.
fn message_to(b: usize, n: usize, a: usize, m: Message, left: usize) -> usize
    requires { (1 ≤ b) × (b ≤ n) }
    ensures { (result ≤ 1) × ((v : View) → result ≡ go_to b (take left (addressed n a v m))) }
{
    if !is_answer(m) {
        usize::from(b <= left)
    } else if a == b {
        left.min(1)
    } else {
        0
    }
}

fn sent_to(b: usize, n: usize, a: usize, s: Sent, left: usize) -> usize
    requires { (1 ≤ b) × (b ≤ n) }
    ensures { (result ≤ 2) × ((v : View) → result ≡ go_to b (take left (entries_of n a v (listed s)))) }
{
    match s {
        Sent::Nothing => 0,
        Sent::One(m) => message_to(b, n, a, m, left),
        Sent::Two(m, k) => message_to(b, n, a, m, left)
            + message_to(b, n, a, k, left_after(n, m, left)),
    }
}

// How many of the first `left` entries of a step go to node b.
pub fn entries_to(b: usize, n: usize, a: usize, o: Outbox, left: usize) -> usize
    requires { (1 ≤ b) × (b ≤ n) }
    ensures { (result ≤ 6) × (result ≡ go_to b (take left (entries n a o))) }
{
    let second = left_past(n, o.handler, left);
    let third = left_past(n, o.reading, second);
    sent_to(b, n, a, o.handler, left)
        + sent_to(b, n, a, o.reading, second)
        + sent_to(b, n, a, o.comparing, third)
}
