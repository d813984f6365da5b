// Why a call is refused: document 01's refusals, and from 14 on those of document 02. Each has its number there; 13 is
// an ending's.
#![tactic(auto)]

ghost use Rattle.std.specs.Prelude.{◌≡◌};
ghost use Rattle.refusal.specs.Refusal.{number};

#[derive(Clone, Copy, Debug, PartialEq, Eq)]
pub enum Refusal {
    // No cluster has such an n, f or own number.
    Size = 1,
    // The record or the cluster cannot be used.
    Unusable = 2,
    // It is no node's number.
    Node = 3,
    // The node has stopped.
    Stopped = 4,
    // An operation is open.
    Open = 5,
    // Too few request numbers are left.
    Requests = 6,
    // The bytes or the numbers are not of the layout.
    Layout = 7,
    // Nothing waits on the channel.
    Empty = 8,
    // A value that cannot come now.
    Value = 9,
    // One node more may not stop.
    Stops = 10,
    // A channel would hold more than it can.
    Full = 11,
    // What was lent has not the length that the call asks.
    Length = 12,
    // The frame is empty or too long.
    Frame = 14,
    // The buffer is shorter than the page.
    Page = 15,
}

impl Refusal {
    pub fn number(self) -> u8
        ensures { result ≡ number self }
    {
        self as u8
    }
}
