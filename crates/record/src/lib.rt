// What one node (document 01: cabinet) remembers, by value and of fixed size: the numbers, the wait of the open
// operation and the tables. Here are its fresh form, the judgement whether it is usable, the refusals that depend on
// it alone, and the few ways in which a step changes it.
#![tactic(auto)]

pub mod changes;
pub mod usable;

ghost use Rattle.std.specs.Prelude.{◌≡◌};
ghost use Rattle.record.specs.Record.{blank};

use table::CELLS;
use view::{Report, View, absent};

// What a client asks for: an update with its report, or a scan (document 01: look).
#[derive(Clone, Copy)]
pub enum Operation {
    Update(Report),
    Scan,
}

// Which of the two is open, where the report is no longer needed.
#[derive(Clone, Copy)]
pub enum Kind {
    Update,
    Scan,
}

// What the open operation waits for, each wait with its own numbers: a quorum of read answers, of write answers, of
// agreeing nodes, or a good message. `answered` is the set of senders counted, `round` 0 for the first lattice
// operation of an update and 1 to 3 for those of the renewal, `tag` the round's tag.
#[derive(Clone, Copy)]
pub enum Wait {
    Idle,
    Reading {
        operation: Operation,
        answered: u64,
        largest: u64,
    },
    Writing {
        kind: Kind,
        round: u64,
        tag: u64,
        answered: u64,
    },
    Comparing {
        kind: Kind,
        round: u64,
        tag: u64,
    },
    Borrowing {
        kind: Kind,
        tag: u64,
    },
}

// The record. Of the cluster's n nodes at most f stop; `own` is the number of this one. `maxtag` is the source's maxTag
// (document 01: top stamp), `request` the last request number used, `heard` the last tag heard per sender and writer.
// Per writer: `last` its last report, `atmax` the newest not above `maxtag`, `atround` the newest not above the open
// round's tag (no reports while no round is open). `kept` and `keptview` are the good message kept.
#[derive(Clone, Copy)]
pub struct Node {
    pub n: usize,
    pub f: usize,
    pub own: usize,
    pub maxtag: u64,
    pub request: u64,
    pub wait: Wait,
    pub heard: [u64; CELLS],
    pub last: View,
    pub atmax: View,
    pub atround: View,
    pub kept: u64,
    pub keptview: View,
}

// The record of node `own` of n, f of which may stop, that has done nothing.
pub fn blank_node(n: usize, f: usize, own: usize) -> Node
    ensures { result ≡ blank n f own }
{
    Node {
        n,
        f,
        own,
        maxtag: 0,
        request: 0,
        wait: Wait::Idle,
        heard: [0; CELLS],
        last: absent(),
        atmax: absent(),
        atround: absent(),
        kept: 0,
        keptview: absent(),
    }
}
