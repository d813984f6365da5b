// The reply of a call at a node: a refusal, or what a step leaves, with what it sends written into the output buffer.
#![tactic(auto)]

ghost use Rattle.std.specs.Prelude.{◌≡◌, Err, ◌≤◌, length};
ghost use Rattle.view.specs.View.{no_view};
ghost use Rattle.octets.specs.Answer.{returned};
ghost use Rattle.view.specs.Size.{nodes};
ghost use Rattle.step.specs.Claims.{AllLawful, sizes};
ghost use Rattle.step.specs.Step.{messages};
ghost use Rattle.step.specs.Told.{told, told_view};
ghost use Rattle.calls.specs.Entry.{let_out};
ghost use Rattle.emit.specs.Forward.{Received};
ghost use Rattle.reply.specs.Tells.{Tells};

use emit::emit_all;
use record::Node;
use refusal::Refusal;
use step::{Ending, Step};
use view::{View, absent};

// What the call says, a refusal or how the operation ended, if it did; the record after the call, the view of a scan
// that has ended, and how many bytes of messages stand at the start of the output buffer.
#[derive(Clone, Copy)]
pub struct Reply {
    pub said: Result<Ending, Refusal>,
    pub node: Node,
    pub view: View,
    pub length: usize,
}

// A refusal: the record is as it was, and nothing is shown or sent.
pub fn refused_reply(k: Refusal, c: Node) -> Reply
    ensures { result ≡ record { said = Err k; node = c; view = no_view; length = 0 } }
{
    Reply {
        said: Err(k),
        node: c,
        view: absent(),
        length: 0,
    }
}

fn view_shown(e: Ending, v: View) -> View
    ensures { result ≡ told_view (told (returned e) v) }
{
    match e {
        Ending::Scan(_) => v,
        Ending::None | Ending::Done(_) | Ending::Spent => absent(),
    }
}

// Writes what a step sends and answers with the rest of it; b is the bytes of the message that was handled.
pub fn let_out(s: Step, b: &[u8], out: &mut [u8]) -> Reply
    requires { Received s.outbox.handler b.now × (1 ≤ s.node.n) × (s.node.n ≤ nodes)
        × AllLawful s.node.n s.outbox.view (messages s.outbox)
        × (sizes s.node.n (messages s.outbox) ≤ length out.old) }
    ensures { Tells result out.new (let_out s out.old) }
{
    let length = emit_all(s.node.n, s.outbox, b, out);
    Reply {
        said: Ok(s.ending),
        node: s.node,
        view: view_shown(s.ending, s.view),
        length,
    }
}
