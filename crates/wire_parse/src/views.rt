// The view of a good message, as a part of the bytes that were read. It follows from the reader's answer: the message
// is not judged again.
ghost use Rattle.std.specs.Prelude.{◌≡◌, ℕ, ◌≤◌, length};
ghost use Rattle.octets.specs.Answer.{returned};
ghost use Rattle.refusal.specs.Refusal.{answer};
ghost use Rattle.wire.specs.Layout.{good_head};
ghost use Rattle.wire.specs.Codec.{is_good, view_read, address_read, view_found, address_found};
ghost use Rattle.wire.specs.declared.Message.TheVariants.{Good};

use refusal::Refusal;
use wire::{GOOD_HEAD, Message};

// Whether a message carries a view.
pub fn is_good(m: Message) -> bool
    ensures { result ≡ is_good m }
{
    matches!(m, Message::Good { .. })
}

// The view in bytes that are one message.
pub fn parsed_view(b: &[u8], p: Result<Message, Refusal>) -> &[u8]
    requires { (t : ℕ) → answer p ≡ returned (Good t) → good_head ≤ length b.now }
    ensures { (result.now ≡ view_read b.now (answer p))
        × (result.ref_ptr ≡ address_read (answer p) b.entry.ref_ptr) }
{
    match p {
        Ok(Message::Good { .. }) => &b[GOOD_HEAD..],
        _ => &b[..0],
    }
}

// The view in the message at the front of bytes.
#[tactic(auto, unfolding(octets::specs::Bytes::part))]
pub fn found_view(b: &[u8], f: Result<(Message, usize), Refusal>) -> &[u8]
    requires { (t k : ℕ) → answer f ≡ returned (Good t, k) → (good_head ≤ k) × (k ≤ length b.now) }
    ensures { (result.now ≡ view_found b.now (answer f))
        × (result.ref_ptr ≡ address_found (answer f) b.entry.ref_ptr) }
{
    match f {
        Ok((Message::Good { .. }, end)) => &b[GOOD_HEAD..end],
        _ => &b[..0],
    }
}
