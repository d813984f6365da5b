// Writing one message into a buffer, for n nodes.
#![tactic(auto)]

ghost use Rattle.std.specs.Prelude.{◌≡◌, [], length};
ghost use Rattle.refusal.specs.Refusal.{answer as told};
ghost use Rattle.wire.specs.Layout.{encode};
ghost use Rattle.wire.specs.Codec.{answer, after};
ghost use Rattle.wire.specs.declared.Message.TheVariants.{Good};

use refusal::Refusal;
use wire::{Message, is_held, is_pair, is_request, is_sent, is_size};

// Writes a message that carries no view at the front of `out`: its length, or 1, 7, 12. A good one lacks its view here,
// and is refused. A refusal changes nothing, and the bytes after the message stay. This and the next are apart so that
// short messages do not pay for the loops of a view.
#[tactic(auto, unfolding(wire::specs::Codec::answer, wire::specs::Layout::encode, wire::specs::Layout::allowed))]
fn write_short(n: usize, m: Message, out: &mut [u8]) -> Result<usize, Refusal>
    ensures { (told result ≡ answer n m [] (length out.old))
        × (out.new ≡ after (told result) (encode m []) out.old) }
{
    if !is_size(n) {
        return Err(Refusal::Size);
    }
    match m {
        Message::Read { request } if is_request(request) => wire_put::one(out, 1, 2, request),
        Message::ReadAnswer { request, tag } if is_pair(request, tag) => wire_put::two(
            out, 2, request, tag,
        ),
        Message::Write { request, tag } if is_pair(request, tag) => wire_put::two(
            out, 3, request, tag,
        ),
        Message::WriteAnswer { request, tag } if is_pair(request, tag) => wire_put::two(
            out, 4, request, tag,
        ),
        Message::Echo { tag } if is_request(tag) => wire_put::one(out, 5, 3, tag),
        Message::Value {
            tag,
            writer,
            report,
        } if is_sent(n, tag, writer) => wire_put::value(out, tag, writer as u8, report),
        _ => Err(Refusal::Layout),
    }
}

// Writes a good message, likewise.
#[tactic(auto, unfolding(wire::specs::Codec::answer, wire::specs::Layout::encode))]
fn write_good(n: usize, tag: u64, view: &[u8], out: &mut [u8]) -> Result<usize, Refusal>
    ensures { (told result ≡ answer n (Good tag) view.now (length out.old))
        × (out.new ≡ after (told result) (encode (Good tag) view.now) out.old) }
{
    if !is_size(n) {
        return Err(Refusal::Size);
    }
    if !is_held(n, tag, view) {
        return Err(Refusal::Layout);
    }
    wire_put::good(out, tag, view)
}

// Writes a message, with its view if it is a good one, at the front of `out`: its length, or 1, 7, 12.
// A refusal changes nothing, and the bytes after the message stay.
pub fn write(n: usize, m: Message, view: &[u8], out: &mut [u8]) -> Result<usize, Refusal>
    ensures { (told result ≡ answer n m view.now (length out.old))
        × (out.new ≡ after (told result) (encode m view.now) out.old) }
{
    match m {
        Message::Good { tag } => write_good(n, tag, view, out),
        _ => write_short(n, m, out),
    }
}
