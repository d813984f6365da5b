// The calls at one node, on any input: fresh, begin and message. Bytes are read before the step and written after it; a
// refusal is judged before anything is written.
#![tactic(auto)]

ghost use Rattle.std.specs.Prelude.{◌≡◌, true, [], ◌≤◌, length};
ghost use Rattle.octets.specs.Answer.{returned};
ghost use Rattle.view.specs.Size.{nodes};
ghost use Rattle.record.specs.Usable.{usable};
ghost use Rattle.wire.specs.Layout.{encode, allowed};
ghost use Rattle.calls.specs.Entry.{least_output, fresh, begin, beside, taken, message};
ghost use Rattle.reply.specs.Tells.{Tells};

use calls::OUTPUT;
use record::usable::{has_open, is_full, is_usable, sizes_within};
use record::{Node, Operation, blank_node};
pub use refusal::Refusal;
pub use reply::Reply;
use reply::{let_out, refused_reply};
pub use step::Ending;
use step_value::{begin_step, is_stale_message, message_step};
use view::{View, absent, read_view};
use wire::Message;
use wire_parse::parse;
use wire_parse::views::parsed_view;

// A fresh record of node `own` of n, f of which may stop.
#[tactic(auto, unfolding(calls::specs::Entry::fresh))]
pub fn fresh(n: usize, f: usize, own: usize) -> Reply
    ensures { Tells result [] (fresh n f own) }
{
    if !sizes_within(n, f, own) {
        return refused_reply(Refusal::Size, blank_node(0, 0, 0));
    }
    Reply {
        said: Ok(Ending::None),
        node: blank_node(n, f, own),
        view: absent(),
        length: 0,
    }
}

// Begins an operation; the messages go to `out`.
#[tactic(auto, unfolding(calls::specs::Entry::begin))]
pub fn begin(c: Node, o: Operation, out: &mut [u8]) -> Reply
    ensures { Tells result out.new (begin c o out.old) }
{
    if out.len() < OUTPUT {
        return refused_reply(Refusal::Length, c);
    }
    if !is_usable(c) {
        return refused_reply(Refusal::Unusable, c);
    }
    if has_open(c.wait) {
        return refused_reply(Refusal::Open, c);
    }
    if is_full(c) {
        return refused_reply(Refusal::Requests, c);
    }
    let_out(begin_step(c.f, c, o), &[], out)
}

// The view that a good message carries, out of its bytes v.
fn view_beside(n: usize, v: &[u8], m: Message) -> View
    requires { (n ≤ nodes) × (allowed n m v.now ≡ true) }
    ensures { result ≡ beside n v.now m }
{
    match m {
        Message::Good { .. } => read_view(n, v),
        _ => absent(),
    }
}

// A message that was read: b is its bytes, v those of its view.
#[tactic(auto, unfolding(calls::specs::Entry::taken))]
fn taken_message(c: Node, s: usize, b: &[u8], v: &[u8], m: Message, out: &mut [u8]) -> Reply
    requires { (usable c ≡ true) × (1 ≤ s) × (s ≤ c.n) × (allowed c.n m v.now ≡ true)
        × (least_output ≤ length out.old) × (b.now ≡ encode m v.now) }
    ensures { Tells result out.new (taken c s v.now out.old (returned m)) }
{
    if is_stale_message(c, s, m) {
        return refused_reply(Refusal::Value, c);
    }
    let view = view_beside(c.n, v, m);
    let_out(message_step(c.f, c, s, m, view), b, out)
}

// Handles a message from node s; the messages that it gives rise to go to `out`.
#[tactic(auto, unfolding(calls::specs::Entry::message, calls::specs::Entry::taken))]
pub fn message(c: Node, s: usize, b: &[u8], out: &mut [u8]) -> Reply
    ensures { Tells result out.new (message c s b.now out.old) }
{
    if out.len() < OUTPUT {
        return refused_reply(Refusal::Length, c);
    }
    if !is_usable(c) {
        return refused_reply(Refusal::Unusable, c);
    }
    if s < 1 || c.n < s {
        return refused_reply(Refusal::Node, c);
    }
    let p = parse(c.n, b);
    match p {
        Ok(m) => taken_message(c, s, b, parsed_view(b, p), m, out),
        Err(_) => refused_reply(Refusal::Layout, c),
    }
}
