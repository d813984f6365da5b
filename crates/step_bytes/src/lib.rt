// How the open operation of a node begins and moves on, on the bytes of its record: what `begun` and
// `move_on` do to a record by value, done where the record lies.
#![tactic(auto)]

pub mod agree;
pub mod rounds;

ghost use Rattle.std.specs.Prelude.{◌≡◌, true, ◌+◌, ◌≤◌, ◌<◌, length};
ghost use Rattle.view.specs.Size.{limit, nodes};
ghost use Rattle.wire.specs.declared.Message.TheVariants.{Read};
ghost use Rattle.record.specs.Usable.{is_open, full, usable};
ghost use Rattle.step.specs.Step.{started};
ghost use Rattle.step.specs.declared.Sent.TheVariants.{One};
ghost use Rattle.step.specs.Move.{begun};
ghost use Rattle.region.specs.Record.{record_size, record_of, record_bytes};
ghost use Rattle.step_bytes.specs.Moved.{IsStep, rested_of, after_agreement, followed, plan_tag, rests, Leads};

use agree::agrees_in;
use octets::get_word;
use react_bytes::waiting_in;
use record::usable::has_open;
use record::{Kind, Operation, Wait};
use region::head::{Head, head_of, load_wait, save_head};
use region::places::{KEPT_PLACE, MAXTAG_PLACE, REQUEST_PLACE};
use rounds::{failed_in, good_in, lend_in, read_in, rested};
use step::{Ending, Outbox, Sent};
use table::quorum::{is_quorum, members};
use view::{LIMIT, View};
use wire::Message;

// What a step gives beside the record.
#[derive(Clone, Copy)]
pub struct Effect {
    pub outbox: Outbox,
    pub ending: Ending,
    pub view: View,
}

// What a node does next of its own: nothing, since no operation is open or the open one must wait; it acts on a quorum
// of read answers; it compares from now on, as there is no agreement yet; it acts on agreement; it borrows.
#[derive(Clone, Copy)]
pub enum Plan {
    Rest,
    Read { operation: Operation, tag: u64 },
    Compare { kind: Kind, round: u64, tag: u64 },
    Agree { kind: Kind, round: u64, tag: u64 },
    Borrow { kind: Kind },
}

// Whether an operation is open (refusal 5).
pub fn is_open_in(r: &[u8]) -> bool
    requires { length r.now ≡ record_size }
    ensures { result ≡ is_open (record_of r.now).wait }
{
    has_open(load_wait(r))
}

// Whether fewer than five request numbers are left (refusal 6).
pub fn is_full_in(r: &[u8]) -> bool
    requires { length r.now ≡ record_size }
    ensures { result ≡ full (record_of r.now) }
{
    LIMIT.saturating_sub(get_word(r, REQUEST_PLACE)) < 5
}

// What an operation that is begun will send: a read with the next request number.
pub fn asked_in(r: &[u8]) -> Sent
    requires { (length r.now ≡ record_size) × ((record_of r.now).request ≤ limit) }
    ensures { result ≡ One (Read ((record_of r.now).request + 1)) }
{
    let request = get_word(r, REQUEST_PLACE) + 1;
    Sent::One(Message::Read { request })
}

// An operation is begun: its read goes out, with the next request number. That is what is sent.
pub fn ask_in(r: &mut [u8], o: Operation) -> Sent
    requires { (length r.old ≡ record_size) × ((record_of r.old).request ≤ limit) }
    ensures { IsStep (rested_of (record_of r.old).own result) r.new
        (begun (record_of r.old) o) }
{
    let h = head_of(r);
    let request = h.request + 1;
    let wait = Wait::Reading {
        operation: o,
        answered: 0,
        largest: 0,
    };
    save_head(r, Head { request, wait, ..h });
    Sent::One(Message::Read { request })
}

// What comes next. The wait says which pass is the first to try; what a pass leads to, only a later one takes up.
pub fn plan_in(r: &[u8], n: usize, f: usize) -> Plan
    requires { (length r.now ≡ record_size) × ((record_of r.now).n ≡ n) × (n ≤ nodes) × (f < n)
        × (usable (record_of r.now) ≡ true) }
    ensures { Leads f result (record_of r.now) }
{
    match load_wait(r) {
        Wait::Reading {
            operation,
            answered,
            largest,
        } if is_quorum(n, f, members(n, answered)) => Plan::Read {
            operation,
            tag: largest.max(get_word(r, MAXTAG_PLACE)),
        },
        Wait::Writing {
            kind,
            round,
            tag,
            answered,
        } if is_quorum(n, f, members(n, answered)) => {
            if agrees_in(r, n, f) {
                Plan::Agree { kind, round, tag }
            } else {
                Plan::Compare { kind, round, tag }
            }
        }
        Wait::Comparing { kind, round, tag } if agrees_in(r, n, f) => {
            Plan::Agree { kind, round, tag }
        }
        Wait::Borrowing { kind, tag } if tag <= get_word(r, KEPT_PLACE) => Plan::Borrow { kind },
        _ => Plan::Rest,
    }
}

// Whether nothing comes next.
pub fn is_rest(p: Plan) -> bool
    ensures { result ≡ rests p }
{
    matches!(p, Plan::Rest)
}

// A quorum agrees on round i with tag t: the round is good, or it failed where `maxtag` is past its tag.
fn agreement_in(r: &mut [u8], n: usize, to: usize, sent: Sent, k: Kind, i: u64, t: u64) -> Effect
    requires { (length r.old ≡ record_size) × ((record_of r.old).n ≡ n) × (n ≤ nodes)
        × ((record_of r.old).request ≤ limit) × (t ≤ limit) }
    ensures { IsStep result r.new (after_agreement (started (record_of r.old) to sent) k i t) }
{
    if get_word(r, MAXTAG_PLACE) <= t {
        good_in(r, n, to, sent, k, i, t)
    } else {
        failed_in(r, n, to, sent, k, i, t)
    }
}

// A plan is followed, after `sent` went to node `to`.
pub fn follow_in(r: &mut [u8], n: usize, to: usize, sent: Sent, p: Plan) -> Effect
    requires { (length r.old ≡ record_size) × ((record_of r.old).n ≡ n) × (n ≤ nodes)
        × ((record_of r.old).request ≤ limit) × (plan_tag p ≤ limit) × (r.old ≡ record_bytes (record_of r.old)) }
    ensures { IsStep result r.new (followed p (started (record_of r.old) to sent)) }
{
    match p {
        Plan::Rest => rested(to, sent),
        Plan::Read { operation, tag } => read_in(r, to, sent, operation, tag),
        Plan::Compare { kind, round, tag } => {
            waiting_in(r, Wait::Comparing { kind, round, tag });
            rested(to, sent)
        }
        Plan::Agree { kind, round, tag } => agreement_in(r, n, to, sent, kind, round, tag),
        Plan::Borrow { kind } => lend_in(r, n, to, sent, kind),
    }
}
