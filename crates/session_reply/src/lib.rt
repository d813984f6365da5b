// What is said of a line of a session that is run: which node handles it, and the reply by what its event tells. The
// definitions are in specs/.
#![tactic(auto)]

ghost use Rattle.std.specs.Prelude.{◌≡◌};
ghost use Rattle.octets.specs.Answer.{returned};
ghost use Rattle.step.specs.Told.{told as tells_of};
ghost use Rattle.events.specs.Outcome.{told_by};
ghost use Rattle.session_reply.specs.Reply.{printed_for};
ghost use Rattle.session_reply.specs.Reply.{handler as handler_of};

use answers::Printed;
use events::Reply;
use lines::Command;
use step::Ending;
use view::View;

// The node that handles a line; 0 where the line is bad.
pub fn handler(l: Option<Command>) -> usize
    ensures { result ≡ handler_of l }
{
    let Some(c) = l else { return 0 };
    match c {
        Command::Update { node, .. } | Command::Scan { node, .. } | Command::Stop { node } => node,
        Command::Deliver { to, .. } => to,
    }
}

// What is said of its event, where c is that node.
fn ending_at(c: usize, e: Ending) -> Option<Printed>
    ensures { ((v : View) → result ≡ printed_for c (tells_of (returned e) v)) }
{
    match e {
        Ending::None => None,
        Ending::Done(_) => Some(Printed::Done(c)),
        Ending::Scan(_) => Some(Printed::Scan(c)),
        Ending::Spent => Some(Printed::Spent(c)),
    }
}

pub fn printed_at(c: usize, a: Reply) -> Option<Printed>
    ensures { result ≡ printed_for c (told_by a) }
{
    match a {
        Err(k) => Some(Printed::No(usize::from(k.number()))),
        Ok(e) => ending_at(c, e.ending),
    }
}
