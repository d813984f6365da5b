// Writing what a step sends into an output buffer: each message once, in order, from the buffer's start. A value that a
// handler forwards is the one that came, and its bytes are copied as they came.
#![tactic(auto)]

ghost use Rattle.std.specs.Prelude.{◌≡◌, true, false, [], ◌++◌, ◌+◌, ◌≤◌, length};
ghost use Rattle.octets.specs.Bytes.{put};
ghost use Rattle.view.specs.Size.{nodes, is_size};
ghost use Rattle.view.specs.View.{no_view, view_bytes};
ghost use Rattle.wire.specs.Layout.{encode, allowed};
ghost use Rattle.wire.specs.declared.Message.TheVariants.{Good};
ghost use Rattle.step.specs.Claims.{AllLawful, sizes};
ghost use Rattle.step.specs.Step.{listed, messages};
ghost use Rattle.calls.specs.Bytes.{run, out_bytes};
ghost use Rattle.emit.specs.Room.{Room};
ghost use Rattle.emit.specs.Good.{any_good};
ghost use Rattle.emit.specs.Forward.{Received};

use decide::is_forward;
use octets::put_run;
use step::{Outbox, Sent};
use view::{ENTRY, VIEW, write_view};
use wire::{Message, VALUE};
use wire_parse::views::is_good;
use wire_put::{good, short};

// Writes a message that is not good at a place, and answers the place after it.
fn emit_short(m: Message, out: &mut [u8], at: usize) -> usize
    requires { (allowed nodes m [] ≡ true) × (at + length (encode m []) ≤ length out.old) }
    ensures { (result ≡ at + length (encode m []))
        × (out.new ≡ put out.old at (encode m [])) }
{
    at + short(m, &mut out[at..])
}

// Writes a good message with its view, likewise.
fn emit_good(n: usize, tag: u64, v: &[u8], out: &mut [u8], at: usize) -> usize
    requires { (is_size n ≡ true) × (allowed n (Good tag) v.now ≡ true)
        × (at + length (encode (Good tag) v.now) ≤ length out.old) }
    ensures { (result ≡ at + length (encode (Good tag) v.now))
        × (out.new ≡ put out.old at (encode (Good tag) v.now)) }
{
    at + good(&mut out[at..], tag, v).unwrap()
}

// Writes one message at a place, and answers the place after it.
fn emit_one(n: usize, m: Message, v: &[u8], out: &mut [u8], at: usize) -> usize
    requires { (is_size n ≡ true) × (allowed n m v.now ≡ true)
        × (at + length (encode m v.now) ≤ length out.old) }
    ensures { (result ≡ at + length (encode m v.now))
        × (out.new ≡ put out.old at (encode m v.now)) }
{
    match m {
        Message::Good { tag } => emit_good(n, tag, v, out, at),
        _ => emit_short(m, out, at),
    }
}

// Writes what one part of a step sends.
fn emit_sent(n: usize, m: Sent, v: &[u8], out: &mut [u8], at: usize) -> usize
    requires { Room n v.now (listed m) at (length out.old) }
    ensures { (result ≡ at + length (run v.now (listed m)))
        × (out.new ≡ put out.old at (run v.now (listed m))) }
{
    match m {
        Sent::Nothing => at,
        Sent::One(a) => emit_one(n, a, v, out, at),
        Sent::Two(a, b) => {
            let next = emit_one(n, a, v, out, at);
            emit_one(n, b, v, out, next)
        }
    }
}

// Writes what a handler sends, at the start. b is the bytes of the message that it handled; a value is copied from it.
fn emit_first(n: usize, m: Sent, b: &[u8], v: &[u8], out: &mut [u8]) -> usize
    requires { Received m b.now × Room n v.now (listed m) 0 (length out.old) }
    ensures { (result ≡ length (run v.now (listed m)))
        × (out.new ≡ put out.old 0 (run v.now (listed m))) }
{
    if is_forward(m) {
        put_run(out, 0, &b[..VALUE]);
        VALUE
    } else {
        emit_sent(n, m, v, out, 0)
    }
}

// Writes the three parts of a step, one after the other, and answers how many bytes they have; b is the bytes of the
// message that was handled, v those of the step's view.
fn emit_parts(
    n: usize,
    handler: Sent,
    reading: Sent,
    comparing: Sent,
    b: &[u8],
    v: &[u8],
    out: &mut [u8],
) -> usize
    requires { Received handler b.now
        × Room n v.now (listed handler ++ listed reading ++ listed comparing) 0 (length out.old) }
    ensures { (result ≡ length (run v.now (listed handler ++ listed reading ++ listed comparing)))
        × (out.new
        ≡ put out.old 0 (run v.now (listed handler ++ listed reading ++ listed comparing))) }
{
    let first = emit_first(n, handler, b, v, out);
    let second = emit_sent(n, reading, v, out, first);
    emit_sent(n, comparing, v, out, second)
}

// Writes the messages of a begin. None is good, so there is no view.
pub fn emit_begin(n: usize, m: Sent, out: &mut [u8]) -> usize
    requires { (1 ≤ n) × (n ≤ nodes) × (any_good (listed m) ≡ false) × AllLawful n no_view (listed m)
        × (sizes n (listed m) ≤ length out.old) }
    ensures { (result ≡ length (run (view_bytes n no_view) (listed m)))
        × (out.new ≡ put out.old 0 (run (view_bytes n no_view) (listed m))) }
{
    emit_sent(n, m, &[], out, 0)
}

// Writes the messages of a handler after which nothing is sent, likewise; b is the bytes of the message it handled.
pub fn emit_handler(n: usize, m: Sent, b: &[u8], out: &mut [u8]) -> usize
    requires { Received m b.now × (1 ≤ n) × (n ≤ nodes) × (any_good (listed m) ≡ false)
        × AllLawful n no_view (listed m) × (sizes n (listed m) ≤ length out.old) }
    ensures { (result ≡ length (run (view_bytes n no_view) (listed m)))
        × (out.new ≡ put out.old 0 (run (view_bytes n no_view) (listed m))) }
{
    emit_first(n, m, b, &[], out)
}

// Whether a part of a step holds a good message.
fn holds_good(m: Sent) -> bool
    ensures { result ≡ any_good (listed m) }
{
    match m {
        Sent::Nothing => false,
        Sent::One(a) => is_good(a),
        Sent::Two(a, b) => is_good(a) || is_good(b),
    }
}

// Writes what a step sends, with the bytes of its view.
fn emit_held(n: usize, o: Outbox, b: &[u8], out: &mut [u8]) -> usize
    requires { Received o.handler b.now × (1 ≤ n) × (n ≤ nodes) × AllLawful n o.view (messages o)
        × (sizes n (messages o) ≤ length out.old) }
    ensures { (result ≡ length (out_bytes n o)) × (out.new ≡ put out.old 0 (out_bytes n o)) }
{
    let mut view = [0u8; VIEW];
    let size = ENTRY * n;
    write_view(n, o.view, &mut view[..size]);
    emit_parts(n, o.handler, o.reading, o.comparing, b, &view[..size], out)
}

// Writes what a whole step sends, and answers how many bytes it has; b is the bytes of the message that was handled.
// The bytes of the view are made for a good message alone.
// Not inlined: what it has on the stack does not lie beside that of the step.
#[inline(never)]
pub fn emit_all(n: usize, o: Outbox, b: &[u8], out: &mut [u8]) -> usize
    requires { Received o.handler b.now × (1 ≤ n) × (n ≤ nodes) × AllLawful n o.view (messages o)
        × (sizes n (messages o) ≤ length out.old) }
    ensures { (result ≡ length (out_bytes n o)) × (out.new ≡ put out.old 0 (out_bytes n o)) }
{
    if holds_good(o.handler) || holds_good(o.reading) || holds_good(o.comparing) {
        emit_held(n, o, b, out)
    } else {
        emit_parts(n, o.handler, o.reading, o.comparing, b, &[], out)
    }
}
