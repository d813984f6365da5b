// What leaves a step of a node: its entries, one for each message and receiver, and how many of them an event lets out.
#![tactic(auto)]

pub mod entries;

ghost use Rattle.std.specs.Prelude.{◌≡◌};
ghost use Rattle.outgoing.specs.Outgoing.{most, is_cut};

use view::NODES;

// How much an event lets out of its list of entries: all of it, or its first m entries, after which the node stops.
#[derive(Clone, Copy)]
pub enum Extent {
    Whole,
    Cut(usize),
}

// Whether the node stops.
pub fn is_cut(x: Extent) -> bool
    ensures { result ≡ is_cut x }
{
    matches!(x, Extent::Cut(_))
}

// No step sends one node more messages than this: it has three parts of at most two.
pub const SENT_MOST: usize = 6;

// A number of entries that holds all that are let out.
const ENTRIES: usize = SENT_MOST * NODES;

pub fn allowance(x: Extent) -> usize
    ensures { result ≡ most x }
{
    match x {
        Extent::Whole => ENTRIES,
        Extent::Cut(m) => m,
    }
}
