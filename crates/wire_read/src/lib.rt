// The two readers that are handed out: a message, and beside it the view of a good one, which stays in its bytes and is
// handed back as a part of them.
#![tactic(auto)]

ghost use Rattle.std.specs.Prelude.{◌≡◌};
ghost use Rattle.refusal.specs.Refusal.{answer};
ghost use Rattle.wire.specs.Codec.{front, decode, view_part, view_address, front_part, front_address};

use refusal::Refusal;
use wire::Message;
use wire_parse::views::{found_view, parsed_view};
use wire_parse::{parse, parse_prefix};

// What the two readers hand back: the answer, and the view of a good message as a part of the caller's bytes. Of all
// other bytes that part is empty.
#[derive(Clone, Copy)]
pub struct Reading<'a> {
    pub parsed: Result<Message, Refusal>,
    pub view: &'a [u8],
}

#[derive(Clone, Copy)]
pub struct Prefix<'a> {
    pub found: Result<(Message, usize), Refusal>,
    pub view: &'a [u8],
}

// Reads the message at the front of b: the message and its length, or 1, 7, and its view.
pub fn read_prefix<'a>(n: usize, b: &'a [u8]) -> Prefix<'a>
    ensures { (answer result.found ≡ front n b.now)
        × (result.view.now ≡ front_part n b.now)
        × (result.view.ref_ptr ≡ front_address n b.now b.entry.ref_ptr) }
{
    let found = parse_prefix(n, b);
    let view = found_view(b, found);
    Prefix { found, view }
}

// Reads bytes that are one message: the message, or 1, 7, and its view.
pub fn read<'a>(n: usize, b: &'a [u8]) -> Reading<'a>
    ensures { (answer result.parsed ≡ decode n b.now)
        × (result.view.now ≡ view_part n b.now)
        × (result.view.ref_ptr ≡ view_address n b.now b.entry.ref_ptr) }
{
    let parsed = parse(n, b);
    let view = parsed_view(b, parsed);
    Reading { parsed, view }
}
