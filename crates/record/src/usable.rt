// Whether a record is usable (refusal 2), and the refusals that depend on the record alone (5, 6 and 9).
ghost use Rattle.std.specs.Prelude.{◌≡◌, ◌≤◌};
ghost use Rattle.view.specs.Size.{nodes};
ghost use Rattle.record.specs.Usable.{still_uses, round_tag, round_ok, wait_ok, sizes_within, numbers_within};
ghost use Rattle.record.specs.Usable.{numbers_ok, tables_ok, usable, is_open, full, stale_tag, stale};

use crate::{Node, Operation, Wait};
use table::quorum::{can_be, is_only};
use table::views::{heard_within, tag_of, view_within};
use view::{LIMIT, NODES};

// The request numbers that the open operation may still use.
fn still_uses(wait: Wait) -> u64
    ensures { result ≡ still_uses wait }
{
    match wait {
        Wait::Idle | Wait::Borrowing { .. } => 0,
        Wait::Reading {
            operation: Operation::Update(_),
            ..
        } => 4,
        Wait::Reading {
            operation: Operation::Scan,
            ..
        } => 3,
        Wait::Writing { round, .. } | Wait::Comparing { round, .. } => 3u64.saturating_sub(round),
    }
}

// The tag above which no report is held for the open round; the limit where none is open.
pub fn round_tag(wait: Wait) -> u64
    ensures { result ≡ round_tag wait }
{
    match wait {
        Wait::Writing { tag, .. } | Wait::Comparing { tag, .. } => tag,
        Wait::Idle | Wait::Reading { .. } | Wait::Borrowing { .. } => LIMIT,
    }
}

fn round_ok(round: u64, tag: u64) -> bool
    ensures { result ≡ round_ok round tag }
{
    round <= 3 && (tag <= LIMIT && 1 <= round || tag < LIMIT)
}

fn wait_ok(n: usize, wait: Wait) -> bool
    requires { n ≤ nodes }
    ensures { result ≡ wait_ok n wait }
{
    match wait {
        Wait::Idle => true,
        Wait::Reading {
            answered,
            largest,
            ..
        } => is_only(n, answered) && largest <= LIMIT,
        Wait::Writing {
            round,
            tag,
            answered,
            ..
        } => is_only(n, answered) && round_ok(round, tag),
        Wait::Comparing { round, tag, .. } => round_ok(round, tag),
        Wait::Borrowing { tag, .. } => tag <= LIMIT,
    }
}

// Whether there may be a node `own` of n, f of which may stop (refusals 1 and 2).
pub fn sizes_within(n: usize, f: usize, own: usize) -> bool
    ensures { result ≡ sizes_within n f own }
{
    can_be(n, f) && 1 <= own && own <= n
}

// Whether the numbers of a record keep their limits.
pub fn numbers_within(n: usize, maxtag: u64, request: u64, kept: u64, wait: Wait) -> bool
    requires { n ≤ nodes }
    ensures { result ≡ numbers_within n maxtag request kept wait }
{
    maxtag <= LIMIT
        && request <= LIMIT
        && kept <= LIMIT
        && wait_ok(n, wait)
        && still_uses(wait) <= LIMIT.saturating_sub(request)
}

#[tactic(auto, unfolding(crate::specs::Usable::numbers_ok))]
fn numbers_ok(c: Node) -> bool
    requires { c.n ≤ nodes }
    ensures { result ≡ numbers_ok c }
{
    numbers_within(c.n, c.maxtag, c.request, c.kept, c.wait)
}

#[tactic(auto, unfolding(crate::specs::Usable::tables_ok))]
fn tables_ok(c: Node) -> bool
    ensures { result ≡ tables_ok c }
{
    heard_within(&c.heard)
        && view_within(LIMIT, c.last)
        && view_within(c.maxtag, c.atmax)
        && view_within(round_tag(c.wait), c.atround)
        && view_within(c.kept, c.keptview)
}

// Whether the record is one that document 01 does not refuse with 2.
#[tactic(auto, unfolding(crate::specs::Usable::usable))]
pub fn is_usable(c: Node) -> bool
    ensures { result ≡ usable c }
{
    sizes_within(c.n, c.f, c.own) && numbers_ok(c) && tables_ok(c)
}

// Whether an operation is open (refusal 5).
pub fn has_open(wait: Wait) -> bool
    ensures { result ≡ is_open wait }
{
    !matches!(wait, Wait::Idle)
}

// Whether fewer than five request numbers are left (refusal 6).
pub fn is_full(c: Node) -> bool
    ensures { result ≡ full c }
{
    LIMIT.saturating_sub(c.request) < 5
}

// Whether a value with tag t is refused (9): it is below the last tag heard from its sender for its writer, or above
// the writer's last while that is above `maxtag`.
pub fn is_stale_tag(heard: u64, last: u64, maxtag: u64, t: u64) -> bool
    ensures { result ≡ stale_tag heard last maxtag t }
{
    t < heard || last < t && maxtag < last
}

// The same of a value of writer w from sender s, at a record.
pub fn is_stale(c: Node, s: usize, w: usize, t: u64) -> bool
    requires { (1 ≤ s) × (s ≤ nodes) × (1 ≤ w) × (w ≤ nodes) }
    ensures { result ≡ stale c s w t }
{
    is_stale_tag(
        c.heard[(s - 1) * NODES + (w - 1)],
        tag_of(c.last, w),
        c.maxtag,
        t,
    )
}
