// The calls at one node on its record in lent bytes, on any input: size, fresh, begin and message. A step is done where
// the record lies. All that can refuse a call is judged before the first byte is written, so that a refusal leaves
// every byte as it was.
#![tactic(auto)]

ghost use Rattle.std.specs.Prelude.{◌≡◌, true, [], ◌≤◌, length, IfOk};
ghost use Rattle.octets.specs.Answer.{returned};
ghost use Rattle.wire.specs.Layout.{encode, allowed};
ghost use Rattle.record.specs.Usable.{usable};
ghost use Rattle.calls.specs.Entry.{least_output, taken};
ghost use Rattle.region.specs.Record.{record_size, record_of};
ghost use Rattle.calls_bytes.specs.Entry.{in_bytes, usable_in, fresh as fresh_call, begin as begin_call};
ghost use Rattle.calls_bytes.specs.Entry.{message as message_call};
ghost use Rattle.events.specs.Outcome.{fault};
ghost use Rattle.node_bytes.specs.Admission.{admission as admission_of};
ghost use Rattle.node_bytes.specs.Called.{Tells, Shows};

use block::judge::record_sound;
use calls::OUTPUT;
use calls_bytes::show_view;
use emit::{emit_all, emit_begin, emit_handler};
use octets::get_word;
use react_bytes::{is_stale_in, react_in};
use record::usable::sizes_within;
use record::{Operation, Wait};
use refusal::Refusal;
use region::head::{Head, save_head};
use region::places::{F_PLACE, N_PLACE, OWN_PLACE, RECORD};
use step::Ending;
use step_bytes::{ask_in, follow_in, is_full_in, is_open_in, is_rest, plan_in};
use view::VIEW;
use wire::Message;
use wire_parse::views::parsed_view;

// What an accepted call gives: how an operation ended, if one did, and how many bytes of messages stand at the start of
// the output buffer.
#[derive(Clone, Copy)]
pub struct Called {
    pub ending: Ending,
    pub length: usize,
}

// The bytes of a record.
pub fn size() -> usize
    ensures { result ≡ record_size }
{
    RECORD
}

// Makes the lent bytes the fresh record of node `own` of n, f of which may stop, or refuses with 1, 12.
pub fn fresh(n: usize, f: usize, own: usize, r: &mut [u8]) -> Result<Called, Refusal>
    ensures { Tells result r.new [] (fresh_call n f own r.old) }
{
    if !sizes_within(n, f, own) {
        return Err(Refusal::Size);
    }
    if r.len() != RECORD {
        return Err(Refusal::Length);
    }
    r.fill(0);
    save_head(
        r,
        Head {
            n: n as u64,
            f: f as u64,
            own: own as u64,
            maxtag: 0,
            request: 0,
            kept: 0,
            wait: Wait::Idle,
        },
    );
    Ok(Called {
        ending: Ending::None,
        length: 0,
    })
}

// Whether these bytes are a record that can be used.
fn is_usable_in(r: &[u8]) -> bool
    requires { length r.now ≡ record_size }
    ensures { result ≡ usable_in r.now }
{
    let n = get_word(r, N_PLACE) as usize;
    let f = get_word(r, F_PLACE) as usize;
    let own = get_word(r, OWN_PLACE) as usize;
    sizes_within(n, f, own) && record_sound(r, n, f, own)
}

// The number of nodes of the record; or the first of 12 and 2 that refuses a call on these bytes with so much room for
// output, of which it asks for at least so much.
pub fn admission(r: &[u8], least: usize, room: usize) -> Result<usize, Refusal>
    ensures refused { fault result ≡ admission_of least r.now room }
    ensures counted { IfOk result (λ n. (record_of r.now).n ≡ n) }
{
    if !(r.len() == RECORD && least <= room) {
        return Err(Refusal::Length);
    }
    if !is_usable_in(r) {
        return Err(Refusal::Unusable);
    }
    Ok(get_word(r, N_PLACE) as usize)
}

// Begins an operation; the messages go to `out`. It refuses with 12, 2, 5, 6.
pub fn begin(r: &mut [u8], o: Operation, out: &mut [u8]) -> Result<Called, Refusal>
    ensures { Tells result r.new out.new (begin_call r.old o out.old) }
{
    let n = admission(r, OUTPUT, out.len())?;
    if is_open_in(r) {
        return Err(Refusal::Open);
    }
    if is_full_in(r) {
        return Err(Refusal::Requests);
    }
    let sent = ask_in(r, o);
    let length = emit_begin(n, sent, out);
    Ok(Called {
        ending: Ending::None,
        length,
    })
}

// A message that was read is handled, b its bytes and v those of its view, or refused with 9. Where nothing comes after
// what the handler does, no view is carried about.
pub fn take_message(
    r: &mut [u8],
    n: usize,
    s: usize,
    b: &[u8],
    v: &[u8],
    m: Message,
    out: &mut [u8],
    view: &mut [u8; VIEW],
) -> Result<Called, Refusal>
    requires { (length r.old ≡ record_size) × (usable (record_of r.old) ≡ true) × ((record_of r.old).n ≡ n)
        × (1 ≤ s) × (s ≤ n) × (allowed n m v.now ≡ true) × (least_output ≤ length out.old)
        × (b.now ≡ encode m v.now) }
    ensures { Shows result r.new out.new view.new (in_bytes r.old
        (taken (record_of r.old) s v.now out.old (returned m))) view.old }
{
    if is_stale_in(r, s, m) {
        return Err(Refusal::Value);
    }
    let f = get_word(r, F_PLACE) as usize;
    let sent = react_in(r, n, s, m, v);
    let p = plan_in(r, n, f);
    if is_rest(p) {
        let length = emit_handler(n, sent, b, out);
        return Ok(Called {
            ending: Ending::None,
            length,
        });
    }
    let e = follow_in(r, n, s, sent, p);
    show_view(e.ending, e.view, view);
    let length = emit_all(n, e.outbox, b, out);
    Ok(Called {
        ending: e.ending,
        length,
    })
}

// Handles a message from node s; the messages that it gives rise to go to `out`, the view of a scan that ends to
// `view`. It refuses with 12, 2, 3, 7, 9.
pub fn message(
    r: &mut [u8],
    s: usize,
    b: &[u8],
    out: &mut [u8],
    view: &mut [u8; VIEW],
) -> Result<Called, Refusal>
    ensures { Shows result r.new out.new view.new
        (message_call r.old s b.now out.old) view.old }
{
    let n = admission(r, OUTPUT, out.len())?;
    if !(1 <= s && s <= n) {
        return Err(Refusal::Node);
    }
    let p = wire_parse::parse(n, b);
    match p {
        Ok(m) => take_message(r, n, s, b, parsed_view(b, p), m, out, view),
        Err(_) => Err(Refusal::Layout),
    }
}
