// Sets of nodes, agreement on the reports held for a round, and quorums.
ghost use Rattle.std.specs.Prelude.{◌≡◌, ◌≤◌, leb};
ghost use Rattle.view.specs.Size.{nodes};
ghost use Rattle.table.specs.Loop.{all};
ghost use Rattle.table.specs.Table.{at, heard_of};
ghost use Rattle.table.specs.Quorum.{member, with, only, members_in, most_faults, is_quorum, agreeing};
ghost use Rattle.table.specs.Quorum.{can_be, tolerates as Quorum·tolerates};

use crate::CELLS;
use view::NODES;

// The largest f that any cluster can have.
const FAULTS: usize = (NODES - 1) / 2;

// Whether node s is in the set m.
#[tactic(auto, unfolding(crate::specs::Quorum::member))]
pub fn is_member(m: u64, s: usize) -> bool
    requires { (1 ≤ s) × (s ≤ nodes) }
    ensures { result ≡ member m s }
{
    (m >> (s - 1)) % 2 == 1
}

// The set m with node s.
#[tactic(auto, using(crate::proofs::Sets::shifted), unfolding(crate::specs::Quorum::with))]
pub fn with_member(m: u64, s: usize) -> u64
    requires { (1 ≤ s) × (s ≤ nodes) }
    ensures { result ≡ with m s }
{
    m | (1 << (s - 1))
}

// Whether the set m has no node beyond n.
#[tactic(auto, unfolding(crate::specs::Quorum::only))]
pub fn is_only(n: usize, m: u64) -> bool
    requires { n ≤ nodes }
    ensures { result ≡ only n m }
{
    m >> n == 0
}

// How many of the nodes 1 to n are in the set m: the ones among its first n bits.
pub fn members(n: usize, m: u64) -> usize
    requires { n ≤ nodes }
    ensures { result ≡ members_in n m }
{
    (m & ((1 << n) - 1)).count_ones() as usize
}

// Whether sender s has sent, for each writer, the report held or a later one.
fn has_sent<'a>(n: usize, heard: &'a [u64; CELLS], held: &'a [u64; NODES], s: usize) -> bool
    requires { (n ≤ nodes) × (1 ≤ s) × (s ≤ nodes) }
    ensures { result ≡ all n (λ w. leb (at held.now w) (heard_of heard.now s w)) }
{
    let mut ok = true;
    for w in 0..n {
        ok &= held[w] <= heard[(s - 1) * NODES + w];
    }
    ok
}

// How many nodes agree on the reports held for the open round; the own node does.
pub fn agreeing_nodes<'a>(
    n: usize,
    own: usize,
    heard: &'a [u64; CELLS],
    held: &'a [u64; NODES],
) -> usize
    requires { n ≤ nodes }
    ensures { result ≡ agreeing n own heard.now held.now }
{
    (1..=n)
        .filter(|&s| s == own || has_sent(n, heard, held, s))
        .count()
}

// The largest f with 2f < n, for n at least 1.
pub fn most_faults(n: usize) -> usize
    ensures { result ≡ most_faults n }
{
    n.saturating_sub(1) / 2
}

// Whether n nodes tolerate the stop of f of them: f is at most 7, and 2f < n.
pub fn tolerates(n: usize, f: usize) -> bool
    ensures { result ≡ Quorum·tolerates n f }
{
    f <= FAULTS && f + f < n
}

// Whether there may be a cluster of n nodes, f of which may stop.
pub fn can_be(n: usize, f: usize) -> bool
    ensures { result ≡ can_be n f }
{
    1 <= n && n <= NODES && tolerates(n, f)
}

// Whether k of n nodes are a quorum: at most f are missing.
pub fn is_quorum(n: usize, f: usize, k: usize) -> bool
    ensures { result ≡ is_quorum n f k }
{
    n <= f || n - f <= k
}
