// The handlers of the seven kinds of message, on a record by value: what each does to it and sends, whatever the node
// waits for.
#![tactic(auto)]

ghost use Rattle.std.specs.Prelude.{◌≡◌, true, ◌≤◌};
ghost use Rattle.octets.specs.Test.{pick};
ghost use Rattle.view.specs.Size.{nodes};
ghost use Rattle.table.specs.Table.{put_entry};
ghost use Rattle.step.specs.Allowed.{lawful};
ghost use Rattle.step.specs.Step.{started};
ghost use Rattle.step.specs.React.{raised, received, keep, react};

use decide::{read_wait, round_holds, sent_where, write_sent, write_wait};
use record::Node;
use record::changes::waiting_node;
use step::{Ending, Outbox, Sent, Step};
use table::views::{newest_view, put_entry, tag_of};
use view::{NODES, Report, View, absent};
use wire::Message;

// A step that has handled what came.
pub fn started_step(c: Node, to: usize, sent: Sent) -> Step
    ensures { result ≡ started c to sent }
{
    Step {
        node: c,
        outbox: Outbox {
            to,
            handler: sent,
            reading: Sent::Nothing,
            comparing: Sent::Nothing,
            view: absent(),
        },
        ending: Ending::None,
        view: absent(),
    }
}

// A tag above `maxtag` raises it, and with it the reports held for it.
#[tactic(auto, unfolding(step::specs::React::raised))]
fn raised_node(c: Node, t: u64) -> Node
    ensures { result ≡ raised c t }
{
    if c.maxtag < t {
        Node {
            maxtag: t,
            atmax: newest_view(t, c.last, c.atmax),
            ..c
        }
    } else {
        c
    }
}

// The view with the entry put, where the flag says so.
fn put_where(flag: bool, v: View, w: usize, t: u64, p: Report) -> View
    requires { (1 ≤ w) × (w ≤ nodes) }
    ensures { result ≡ pick flag (put_entry v w t p) v }
{
    if flag { put_entry(v, w, t, p) } else { v }
}

// A value of writer w from sender s: the tag heard changes, and where it is new the tables that may hold it.
#[tactic(auto, unfolding(step::specs::React::received))]
fn received_node(c: Node, s: usize, w: usize, t: u64, p: Report) -> Node
    requires { (1 ≤ s) × (s ≤ nodes) × (1 ≤ w) × (w ≤ nodes) }
    ensures { result ≡ received c s w t p }
{
    let fresh = tag_of(c.last, w) < t;
    let mut heard = c.heard;
    heard[(s - 1) * NODES + (w - 1)] = t;
    Node {
        heard,
        last: put_where(fresh, c.last, w, t, p),
        atmax: put_where(fresh && t <= c.maxtag, c.atmax, w, t, p),
        atround: put_where(fresh && round_holds(c.wait, t), c.atround, w, t, p),
        ..c
    }
}

// Of the good messages the one with the greatest tag is kept, the earlier on a tie.
#[tactic(auto, unfolding(step::specs::React::keep))]
fn kept_node(c: Node, t: u64, v: View) -> Node
    ensures { result ≡ keep c t v }
{
    if c.kept < t {
        Node {
            kept: t,
            keptview: v,
            ..c
        }
    } else {
        c
    }
}

// The handler of each kind. `v` is the view that a good message carries.
#[tactic(auto, unfolding(step::specs::React::react))]
pub fn react_to(c: Node, s: usize, m: Message, v: View) -> Step
    requires { (1 ≤ s) × (s ≤ c.n) × (c.n ≤ nodes) × (lawful c.n m v ≡ true) }
    ensures { result ≡ react c s m v }
{
    match m {
        Message::Read { request } => {
            started_step(
                c,
                s,
                Sent::One(Message::ReadAnswer {
                    request,
                    tag: c.maxtag,
                }),
            )
        }
        Message::ReadAnswer { request, tag } => started_step(
            waiting_node(c, read_wait(c.wait, c.request, s, request, tag)),
            s,
            Sent::Nothing,
        ),
        Message::Write { request, tag } => {
            started_step(
                raised_node(c, tag),
                s,
                write_sent(c.maxtag < tag, request, tag),
            )
        }
        Message::WriteAnswer { request, tag } => started_step(
            waiting_node(c, write_wait(c.wait, c.request, s, request, tag)),
            s,
            Sent::Nothing,
        ),
        Message::Echo { tag } => started_step(
            raised_node(c, tag),
            s,
            sent_where(c.maxtag < tag, m),
        ),
        Message::Value {
            tag,
            writer,
            report,
        } => started_step(
            received_node(c, s, writer, tag, report),
            s,
            sent_where(tag_of(c.last, writer) < tag, m),
        ),
        Message::Good { tag } => started_step(kept_node(c, tag, v), s, Sent::Nothing),
    }
}
