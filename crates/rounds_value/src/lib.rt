// What a pass leads to where it moves the operation on, on a record by value: a round opens, the operation ends, or it
// borrows.
#![tactic(auto)]

ghost use Rattle.std.specs.Prelude.{◌≡◌, ◌≤◌};
ghost use Rattle.view.specs.Size.{nodes, limit};
ghost use Rattle.step.specs.Step.{after_reading, after_comparing, ended};
ghost use Rattle.step.specs.Move.{opened, after_read, after_good, after_failed};

use decide::{ending_of, next_tag};
use record::changes::{closed_node, set_wait};
use record::{Kind, Node, Operation, Wait};
use step::{Ending, Outbox, Rule, Sent, Step};
use table::views::newest_view;
use view::{LIMIT, View, absent, first_of};
use wire::Message;

// A round opens: the next request number, nobody counted, the newest reports not above r held for it.
#[tactic(auto, unfolding(step::specs::Move::opened))]
pub fn opened_node(c: Node, k: Kind, i: u64, r: u64) -> Node
    requires { c.request ≤ limit }
    ensures { result ≡ opened c k i r }
{
    let wait = Wait::Writing {
        kind: k,
        round: i,
        tag: r,
        answered: 0,
    };
    set_wait(c, c.request + 1, wait, newest_view(r, c.last, c.atmax))
}

pub fn after_reading(s: Step, c: Node, m: Sent) -> Step
    ensures { result ≡ after_reading s c m }
{
    Step {
        node: c,
        outbox: Outbox {
            reading: m,
            ..s.outbox
        },
        ..s
    }
}

pub fn after_comparing(s: Step, c: Node, m: Sent, v: View) -> Step
    ensures { result ≡ after_comparing s c m v }
{
    Step {
        node: c,
        outbox: Outbox {
            comparing: m,
            view: v,
            ..s.outbox
        },
        ..s
    }
}

pub fn ended_step(s: Step, c: Node, e: Ending, v: View) -> Step
    ensures { result ≡ ended s c e v }
{
    Step {
        node: c,
        ending: e,
        view: v,
        ..s
    }
}

// A quorum of read answers is there, and the tag used is r: an update sends its value and opens round 0, unless no tag
// is left for it; a scan opens round 1.
#[tactic(auto, unfolding(step::specs::Move::after_read))]
pub fn after_read(s: Step, c: Node, o: Operation, r: u64) -> Step
    requires { (c.request ≤ limit) × (r ≤ limit) }
    ensures { result ≡ after_read s c o r }
{
    let write = Message::Write {
        request: c.request + 1,
        tag: r,
    };
    match o {
        Operation::Update(_) if r == LIMIT => {
            ended_step(s, closed_node(c, Wait::Idle), Ending::Spent, absent())
        }
        Operation::Update(report) => {
            let value = Message::Value {
                tag: r + 1,
                writer: c.own,
                report,
            };
            after_reading(
                s,
                opened_node(c, Kind::Update, 0, r),
                Sent::Two(value, write),
            )
        }
        Operation::Scan => after_reading(s, opened_node(c, Kind::Scan, 1, r), Sent::One(write)),
    }
}

// A good round: after round 0 the next one opens, any other ends the operation. Its view is of n places.
#[tactic(auto, unfolding(step::specs::Move::after_good))]
pub fn after_good(s: Step, c: Node, k: Kind, i: u64, r: u64) -> Step
    requires { (c.n ≤ nodes) × (c.request ≤ limit) × (r ≤ limit) }
    ensures { result ≡ after_good s c k i r }
{
    let held = first_of(c.n, c.atround);
    let good = Message::Good { tag: r };
    if i == 0 {
        let t = next_tag(c.maxtag, 0, r);
        let write = Message::Write {
            request: c.request + 1,
            tag: t,
        };
        after_comparing(s, opened_node(c, k, 1, t), Sent::Two(good, write), held)
    } else {
        let told = after_comparing(s, c, Sent::One(good), held);
        ended_step(
            told,
            closed_node(c, Wait::Idle),
            ending_of(k, Rule::Direct(i)),
            held,
        )
    }
}

// A failed round: the next one opens, and after the third the operation borrows.
#[tactic(auto, unfolding(step::specs::Move::after_failed))]
pub fn after_failed(s: Step, c: Node, k: Kind, i: u64, r: u64) -> Step
    requires { (c.request ≤ limit) × (r ≤ limit) }
    ensures { result ≡ after_failed s c k i r }
{
    if i < 3 {
        let t = next_tag(c.maxtag, i, r);
        let write = Message::Write {
            request: c.request + 1,
            tag: t,
        };
        after_comparing(s, opened_node(c, k, i + 1, t), Sent::One(write), absent())
    } else {
        let borrowing = Wait::Borrowing { kind: k, tag: r };
        after_comparing(s, closed_node(c, borrowing), Sent::Nothing, absent())
    }
}
