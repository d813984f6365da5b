// What bytes say, for n nodes: the message that they are, or that stands at their front; and its view.
#![tactic(auto)]

pub mod views;

ghost use Rattle.std.specs.Prelude.{◌≡◌};
ghost use Rattle.refusal.specs.Refusal.{answer};
ghost use Rattle.wire.specs.Codec.{front, decode};

use refusal::Refusal;
use wire::{Message, is_size};
use wire_front::at_front;

// The message at the front of b and its length, or 1, 7.
pub fn parse_prefix(n: usize, b: &[u8]) -> Result<(Message, usize), Refusal>
    ensures { answer result ≡ front n b.now }
{
    if !is_size(n) {
        return Err(Refusal::Size);
    }
    at_front(n, b)
}

// The message that b is, or 1, 7.
#[tactic(auto, unfolding(wire::specs::Codec::decode))]
pub fn parse(n: usize, b: &[u8]) -> Result<Message, Refusal>
    ensures { answer result ≡ decode n b.now }
{
    let (m, end) = parse_prefix(n, b)?;
    if end != b.len() {
        return Err(Refusal::Layout);
    }
    Ok(m)
}
