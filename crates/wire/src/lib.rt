// Messages and their layout in bytes, for n nodes: the sizes and places of the fields, and which numbers a message may
// have. The view of a good message stays in its bytes.
#![tactic(auto)]

ghost use Rattle.std.specs.Prelude.{◌≡◌, ◌≤◌, leb};
ghost use Rattle.octets.specs.Test.{both};
ghost use Rattle.view.specs.Size.{is_size, nodes};
ghost use Rattle.wire.specs.Layout.{is_request, is_tag, allowed};
ghost use Rattle.wire.specs.declared.Message.TheVariants.{Good};

use view::{ENTRY, LIMIT, NODES, REPORT, Report, TAG, VIEW};

// The bytes of a field's head, and of a request number or a tag.
const HEAD: usize = 3;

pub const NUMBER: usize = TAG;

// Where the fields after the kind stand, their heads and their contents: the first, which is a number; the second; and
// the third of a value, whose second is its writer.
pub const FIRST_HEAD: usize = HEAD + 1;

pub const FIRST: usize = FIRST_HEAD + HEAD;

pub const SECOND_HEAD: usize = FIRST + NUMBER;

pub const SECOND: usize = SECOND_HEAD + HEAD;

pub const THIRD_HEAD: usize = SECOND + 1;

pub const THIRD: usize = THIRD_HEAD + HEAD;

// The bytes of each kind of message, and of the longest one; a good message has a view after its head.
pub const READ: usize = FIRST + NUMBER;

pub const READ_ANSWER: usize = SECOND + NUMBER;

pub const WRITE: usize = SECOND + NUMBER;

pub const WRITE_ANSWER: usize = SECOND + NUMBER;

pub const ECHO: usize = FIRST + NUMBER;

pub const VALUE: usize = THIRD + REPORT;

pub const GOOD_HEAD: usize = SECOND;

pub const LONGEST: usize = GOOD_HEAD + VIEW;

// What nodes send to each other, one case for each of document 01's seven kinds.
// The view of a good message stays beside it.
#[derive(Clone, Copy)]
pub enum Message {
    Read {
        request: u64,
    },
    ReadAnswer {
        request: u64,
        tag: u64,
    },
    Write {
        request: u64,
        tag: u64,
    },
    WriteAnswer {
        request: u64,
        tag: u64,
    },
    Echo {
        tag: u64,
    },
    Value {
        tag: u64,
        writer: usize,
        report: Report,
    },
    Good {
        tag: u64,
    },
}

// Whether there may be n nodes.
pub fn is_size(n: usize) -> bool
    ensures { result ≡ is_size n }
{
    1 <= n && n <= NODES
}

// Whether the layout allows the numbers of a message: of one with a request, of one with a request and a tag, of a
// value, and of a good one with the view beside it.
pub fn is_request(x: u64) -> bool
    ensures { result ≡ is_request x }
{
    1 <= x && x <= LIMIT
}

pub fn is_pair(request: u64, tag: u64) -> bool
    ensures { result ≡ both (is_request request) (is_tag tag) }
{
    is_request(request) && tag <= LIMIT
}

pub fn is_sent(n: usize, tag: u64, writer: usize) -> bool
    ensures { result ≡ both (is_request tag) (both (leb 1 writer) (leb writer n)) }
{
    is_request(tag) && 1 <= writer && writer <= n
}

#[tactic(auto, unfolding(crate::specs::Layout::allowed))]
pub fn is_held(n: usize, tag: u64, view: &[u8]) -> bool
    requires { n ≤ nodes }
    ensures { result ≡ allowed n (Good tag) view.now }
{
    view.len() == ENTRY * n && tag <= LIMIT && view::view_ok(n, tag, view)
}
