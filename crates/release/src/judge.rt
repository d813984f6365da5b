// Refusal 11, judged before anything is written.
ghost use Rattle.std.specs.Prelude.{◌≡◌, ◌≤◌, length, take};
ghost use Rattle.view.specs.Size.{nodes};
ghost use Rattle.table.specs.Loop.{all};
ghost use Rattle.layout.specs.Layout.{cluster_size};
ghost use Rattle.outgoing.specs.Entries.{entries};
ghost use Rattle.outgoing.specs.Room.{room_before, spare};

use layout::{stopped_at, waiting_at};
use outgoing::SENT_MOST;
use outgoing::entries::entries_to;
use region::places::CAPACITY;
use step::Outbox;

// Whether node k can hold what c lets out to it.
#[tactic(auto, unfolding(outgoing::specs::Room::room_before))]
fn room_at(
    b: &[u8],
    n: usize,
    a: usize,
    c: usize,
    cut: bool,
    gone: usize,
    o: Outbox,
    left: usize,
    k: usize,
) -> bool
    requires { (n ≤ nodes) × (1 ≤ c) × (c ≤ n) × (1 ≤ k) × (k ≤ n) × (length b.now ≡ cluster_size n) }
    ensures { result ≡ room_before cut gone c (take left (entries n a o)) b.now k }
{
    if stopped_at(b, k) {
        return true;
    }
    let waiting = waiting_at(b, c, k);
    let more = entries_to(k, n, a, o, left);
    if k == c {
        cut || waiting.saturating_sub(gone) + more <= CAPACITY
    } else {
        waiting + more <= CAPACITY
    }
}

// Whether every node can hold what c lets out to it.
pub(crate) fn has_room(
    b: &[u8],
    n: usize,
    a: usize,
    c: usize,
    cut: bool,
    gone: usize,
    o: Outbox,
    left: usize,
) -> bool
    requires { (n ≤ nodes) × (1 ≤ c) × (c ≤ n) × (length b.now ≡ cluster_size n) }
    ensures { result ≡ all n (room_before cut gone c (take left (entries n a o)) b.now) }
{
    (1..=n).all(|k| room_at(b, n, a, c, cut, gone, o, left, k))
}

// Whether every channel from c can hold whatever a step of c sends, so that 11 does not come up.
pub fn has_spare(b: &[u8], n: usize, c: usize) -> bool
    requires { (n ≤ nodes) × (1 ≤ c) × (c ≤ n) × (length b.now ≡ cluster_size n) }
    ensures { result ≡ spare n c b.now }
{
    // A test without branches: the blocks lie far apart, and no count waits for the one before it.
    let mut ok = true;
    for k in 0..n {
        ok &= waiting_at(b, c, k + 1) + SENT_MOST <= CAPACITY;
    }
    ok
}
