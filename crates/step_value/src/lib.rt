// One step of a node on its record by value, as a pure function: it takes the record and a message, or the begin of an
// operation, and answers with the record after it, what is sent and how the operation ended, if it did. A step reacts,
// then moves the open operation on until it must wait. f, how many nodes may stop, is a parameter everywhere.
#![tactic(auto)]

pub mod passes;

ghost use Rattle.std.specs.Prelude.{◌≡◌, true, false, ◌≤◌};
ghost use Rattle.view.specs.Size.{nodes, limit};
ghost use Rattle.record.specs.Usable.{is_open, full, usable};
ghost use Rattle.step.specs.Allowed.{lawful};
ghost use Rattle.step.specs.Stale.{stale_message, writer_within};
ghost use Rattle.step.specs.Move.{message_step, begun, begin_step};

use passes::move_on;
use react_value::{react_to, started_step};
use record::changes::set_wait;
use record::usable::is_stale;
use record::{Node, Operation, Wait};
use step::{Sent, Step};
use view::View;
use wire::Message;

// A message m from node s, with the view of a good message.
#[tactic(auto, unfolding(step::specs::Move::message_step))]
pub fn message_step(f: usize, c: Node, s: usize, m: Message, v: View) -> Step
    requires { (usable c ≡ true) × (1 ≤ s) × (s ≤ c.n) × (lawful c.n m v ≡ true) }
    ensures { result ≡ message_step f c s m v }
{
    move_on(f, react_to(c, s, m, v))
}

// An operation is begun: its read goes out, with the next request number.
#[tactic(auto, unfolding(step::specs::Move::begun))]
fn begun_step(c: Node, o: Operation) -> Step
    requires { c.request ≤ limit }
    ensures { result ≡ begun c o }
{
    let request = c.request + 1;
    let wait = Wait::Reading {
        operation: o,
        answered: 0,
        largest: 0,
    };
    started_step(
        set_wait(c, request, wait, c.atround),
        c.own,
        Sent::One(Message::Read { request }),
    )
}

// The begin of an operation at a node that has none open and request numbers enough.
#[tactic(auto, unfolding(step::specs::Move::begin_step))]
pub fn begin_step(f: usize, c: Node, o: Operation) -> Step
    requires { (usable c ≡ true) × (is_open c.wait ≡ false) × (full c ≡ false) }
    ensures { result ≡ begin_step f c o }
{
    move_on(f, begun_step(c, o))
}

// Whether a message from s is refused with 9.
pub fn is_stale_message(c: Node, s: usize, m: Message) -> bool
    requires { (1 ≤ s) × (s ≤ nodes) × (writer_within nodes m ≡ true) }
    ensures { result ≡ stale_message c s m }
{
    match m {
        Message::Value { tag, writer, .. } => is_stale(c, s, writer, tag),
        _ => false,
    }
}
