// One byte of a session's text. A line feed ends the line: the first line makes a fresh cluster in the session's
// memory, and each other one runs on it. The definitions are in specs/.
#![tactic(auto)]

ghost use Rattle.std.specs.Prelude.{◌≡◌, ◌+◌, ◌≤◌, length};
ghost use Rattle.octets.specs.Bytes.{put};
ghost use Rattle.answers.specs.Answer.{room};
ghost use Rattle.events.specs.Event.{fresh};
ghost use Rattle.session_progress.specs.Progress.{text_size};
ghost use Rattle.session_line.specs.Act.{ran, printed};
ghost use Rattle.session_byte.specs.Memory.{memory_size, lent, cluster, on_cluster, opened, line_effect};
ghost use Rattle.session_byte.specs.Byte.{stepped};

use block::BLOCK;
use input::Carry;
use layout::BLOCKS_PLACE;
use lines::{Command, Opening};
use session_line::run_at;
use session_progress::{Progress, Stage, TEXT, Turn, next, put_bad};

// The most nodes of a session, and its memory: the bytes of their cluster.
const SESSION_NODES: usize = 5;

pub const MEMORY: usize = BLOCKS_PLACE + BLOCK * SESSION_NODES;

// What a line that ended did: where the session is then, and the place after what is printed.
#[derive(Clone, Copy)]
struct Passed {
    stage: Stage,
    end: usize,
}

// The bytes that a cluster of n nodes has in the memory.
fn lent_for(n: usize) -> usize
    ensures { (result ≡ lent n) × (result ≤ memory_size) }
{
    layout::size(n).min(MEMORY)
}

// Runs a line on the cluster of n nodes in the memory.
fn run_in(m: &mut [u8], e: u64, n: usize, l: Option<Command>, out: &mut [u8], at: usize) -> usize
    requires { (length m.old ≡ memory_size) × (at + room ≤ length out.old) }
    ensures { (m.new ≡ on_cluster n (λ b. (ran l b).bytes) m.old)
        × (out.new ≡ put out.old at (printed e l (cluster n m.old)))
        × (result ≡ at + length (printed e l (cluster n m.old))) }
{
    run_at(&mut m[..lent_for(n)], e, l, out, at)
}

// Makes a fresh cluster of n nodes in the memory, f of which may stop.
fn fresh_in(m: &mut [u8], n: usize, f: usize)
    requires { length m.old ≡ memory_size }
    ensures { m.new ≡ on_cluster n (λ b. (fresh n f b).bytes) m.old }
{
    // A refusal leaves the memory as it was, and that is all that is said here.
    let _ = cluster::fresh(n, f, &mut m[..lent_for(n)]);
}

// The first line, which says n and f where it is not bad.
fn first_line(m: &mut [u8], o: Option<Opening>, out: &mut [u8], at: usize) -> Passed
    requires { (length m.old ≡ memory_size) × (at + room ≤ length out.old) }
    ensures { (result.stage ≡ (opened o m.old).stage) × (m.new ≡ (opened o m.old).memory)
        × (out.new ≡ put out.old at (opened o m.old).text)
        × (result.end ≡ at + length (opened o m.old).text) }
{
    match o {
        Some(Opening { nodes, faults }) => {
            fresh_in(m, nodes, faults);
            Passed {
                stage: Stage::Events { nodes, event: 1 },
                end: at,
            }
        }
        None => Passed {
            stage: Stage::Over,
            end: put_bad(out, at, 0),
        },
    }
}

// A line that has ended.
fn pass(m: &mut [u8], s: Stage, c: Carry, out: &mut [u8], at: usize) -> Passed
    requires { (length m.old ≡ memory_size) × (at + room ≤ length out.old) }
    ensures { (result.stage ≡ (line_effect s c m.old).stage)
        × (m.new ≡ (line_effect s c m.old).memory)
        × (out.new ≡ put out.old at (line_effect s c m.old).text)
        × (result.end ≡ at + length (line_effect s c m.old).text) }
{
    match s {
        Stage::First => first_line(m, input::first(c), out, at),
        Stage::Events { nodes, event } => Passed {
            end: run_in(m, event, nodes, input::event(c), out, at),
            stage: Stage::Events {
                nodes,
                event: next(event),
            },
        },
        Stage::Over => Passed {
            stage: Stage::Over,
            end: at,
        },
    }
}

// One byte of the text.
pub fn step(m: &mut [u8; MEMORY], p: Progress, x: u8, out: &mut [u8; TEXT], at: usize) -> Turn
    requires { at + room ≤ text_size }
    ensures { (result.progress ≡ (stepped p x m.old).progress)
        × (m.new ≡ (stepped p x m.old).memory)
        × (out.new ≡ put out.old at (stepped p x m.old).text)
        × (result.end ≡ at + length (stepped p x m.old).text) }
{
    if x == b'\n' {
        let Passed { stage, end } = pass(m, p.stage, p.carry, out, at);
        Turn {
            progress: Progress {
                carry: input::none(),
                stage,
            },
            end,
        }
    } else {
        Turn {
            progress: Progress {
                carry: input::push(p.carry, x),
                ..p
            },
            end: at,
        }
    }
}
