// What is kept of a session between two pieces of its text: how it starts, whether it is over, and what is printed at
// its end. The definitions are in specs/.
#![tactic(auto)]

ghost use Rattle.std.specs.Prelude.{◌≡◌, ◌+◌, ◌≤◌, length};
ghost use Rattle.octets.specs.Bytes.{put};
ghost use Rattle.answers.specs.Answer.{room};
ghost use Rattle.session_progress.specs.Progress.{text_size, bad_line, begun, finished, is_over};
ghost use Rattle.session_progress.specs.Progress.{next as next_of};

use answers::{Printed, ROOM, put_line};
use input::Carry;

// The most bytes of a piece of the text, and the room for what is printed for it: PIECE * ROOM, since each byte ends at
// most one line.
pub const PIECE: usize = 1024;

pub const TEXT: usize = PIECE * ROOM;

// Where a session is: before its first line; among its events, with the number of nodes and of the next event; or over,
// after a bad first line.
#[derive(Clone, Copy)]
pub enum Stage {
    First,
    Events { nodes: usize, event: u64 },
    Over,
}

// What is kept of a session between two pieces of its text: the line that is being read, and where it is.
#[derive(Clone, Copy)]
pub struct Progress {
    pub carry: Carry,
    pub stage: Stage,
}

// What bytes of the text did: what is kept then, and the place after what is printed.
#[derive(Clone, Copy)]
pub struct Turn {
    pub progress: Progress,
    pub end: usize,
}

// The number after an event's: the greatest number has none.
pub fn next(e: u64) -> u64
    ensures { result ≡ next_of e }
{
    e.saturating_add(1)
}

// A bad line.
pub fn put_bad(out: &mut [u8], at: usize, e: u64) -> usize
    requires { at + room ≤ length out.old }
    ensures { (out.new ≡ put out.old at (bad_line e)) × (result ≡ at + length (bad_line e)) }
{
    put_line(out, at, e, Some(Printed::No(1)), 0, view::absent())
}

// A session before its first byte.
#[tactic(auto, unfolding(crate::specs::Progress::begun))]
pub fn start() -> Progress
    ensures { result ≡ begun }
{
    Progress {
        carry: input::none(),
        stage: Stage::First,
    }
}

// Whether the session has ended after a bad first line.
pub fn is_over(p: Progress) -> bool
    ensures { result ≡ is_over p.stage }
{
    matches!(p.stage, Stage::Over)
}

// The end of the text: what is printed for a first line that never came, and for a last line without its line feed.
pub fn finish(p: Progress, out: &mut [u8; TEXT]) -> usize
    ensures { (out.new ≡ put out.old 0 (finished p)) × (result ≡ length (finished p))
        × (result ≤ text_size) }
{
    match p.stage {
        Stage::First => put_bad(out, 0, 0),
        Stage::Events { event, .. } if p.carry.size > 0 => put_bad(out, 0, event),
        _ => 0,
    }
}
