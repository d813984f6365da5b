// The changes that a step makes in a record.
ghost use Rattle.std.specs.Prelude.{◌≡◌};
ghost use Rattle.record.specs.Record.{set_wait, with_wait, closed};

use crate::{Node, Wait};
use view::{View, absent};

// The record with another request number, wait, and reports held for the round.
pub fn set_wait(c: Node, q: u64, w: Wait, v: View) -> Node
    ensures { result ≡ set_wait c q w v }
{
    Node {
        request: q,
        wait: w,
        atround: v,
        ..c
    }
}

pub fn waiting_node(c: Node, w: Wait) -> Node
    ensures { result ≡ with_wait c w }
{
    Node { wait: w, ..c }
}

pub fn closed_node(c: Node, w: Wait) -> Node
    ensures { result ≡ closed c w }
{
    Node {
        wait: w,
        atround: absent(),
        ..c
    }
}
