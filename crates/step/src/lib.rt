// One step of a node: what it answers. The definitions in specs/ say what a step does to a record by value, and proofs/
// has their theorems. The code is in `decide`, in `react_value`, `rounds_value` and `step_value`, and on a record's
// bytes in `react_bytes` and `step_bytes`.
#![tactic(auto)]

use record::Node;
use view::View;
use wire::Message;

// What one part of a step sends.
#[derive(Clone, Copy)]
pub enum Sent {
    Nothing,
    One(Message),
    Two(Message, Message),
}

// What a step sends, in this order: the handler's messages, those that follow a quorum of read answers, those that
// follow agreement. Answers go to node `to`, whose message was handled, the other kinds to all. `view` is the view that
// a good message carries.
#[derive(Clone, Copy)]
pub struct Outbox {
    pub to: usize,
    pub handler: Sent,
    pub reading: Sent,
    pub comparing: Sent,
    pub view: View,
}

// How an operation came by its view: by a good round of its own, with its number, or by a good message kept.
#[derive(Clone, Copy)]
pub enum Rule {
    Direct(u64),
    Borrowed,
}

// The number of the ending `Spent` in document 01.
pub const SPENT: u8 = 13;

// What a step tells the client: nothing, or that its update is done, its scan has its view, or no tag was left.
#[derive(Clone, Copy)]
pub enum Ending {
    None,
    Done(Rule),
    Scan(Rule),
    Spent,
}

// A step. `view` is that of the operation that ended, an update's too.
#[derive(Clone, Copy)]
pub struct Step {
    pub node: Node,
    pub outbox: Outbox,
    pub ending: Ending,
    pub view: View,
}
