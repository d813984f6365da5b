// A line of a session, run on a lent cluster, and what is printed for it. The definition is in specs/.
#![tactic(auto)]

ghost use Rattle.std.specs.Prelude.{◌≡◌, ◌+◌, ◌≤◌, length};
ghost use Rattle.octets.specs.Bytes.{put};
ghost use Rattle.answers.specs.Answer.{room};
ghost use Rattle.layout.specs.Layout.{stated};
ghost use Rattle.events.specs.Outcome.{Tells};
ghost use Rattle.session_line.specs.Act.{ran, printed};

use answers::{Printed, ROOM, put_line};
use events::Reply;
use layout::STATED_PLACE;
use lines::Command;
use record::Operation;
use session_reply::{handler, printed_at};
use view::absent;

// Runs a command.
fn act(b: &mut [u8], c: Command) -> Reply
    ensures { Tells result b.new (ran (Some c) b.old) }
{
    match c {
        Command::Update {
            node,
            report,
            extent,
        } => cluster::begin(b, node, Operation::Update(report), extent),
        Command::Scan { node, extent } => cluster::begin(b, node, Operation::Scan, extent),
        Command::Deliver { from, to, extent } => cluster::deliver(b, from, to, extent),
        Command::Stop { node } => cluster::stop(b, node),
    }
}

// The number of nodes that a cluster's bytes state.
fn nodes_in(b: &[u8]) -> usize
    ensures { result ≡ stated b.now }
{
    b.get(STATED_PLACE).map_or(0, |n| usize::from(*n))
}

// Runs a line as event e, writes what is printed at a place, and answers the place after it. A bad line says no
// command.
pub fn run_at(b: &mut [u8], e: u64, l: Option<Command>, out: &mut [u8], at: usize) -> usize
    requires { at + room ≤ length out.old }
    ensures { (b.new ≡ (ran l b.old).bytes)
        × (out.new ≡ put out.old at (printed e l b.old))
        × (result ≡ at + length (printed e l b.old)) }
{
    let n = nodes_in(b);
    match l {
        Some(c) => {
            let a = act(b, c);
            let view = a.map_or(absent(), |r| r.view);
            put_line(out, at, e, printed_at(handler(l), a), n, view)
        }
        None => put_line(out, at, e, Some(Printed::No(1)), n, absent()),
    }
}

// Runs a line as event e, writes what is printed at the front of `out`, and answers its length. A line that is refused
// with k leaves every byte of the cluster as it was, and `out` gets the line `e no k`.
pub fn run(b: &mut [u8], e: u64, l: Option<Command>, out: &mut [u8; ROOM]) -> usize
    ensures { (b.new ≡ (ran l b.old).bytes)
        × (out.new ≡ put out.old 0 (printed e l b.old))
        × (result ≡ length (printed e l b.old)) }
{
    run_at(b, e, l, out, 0)
}
