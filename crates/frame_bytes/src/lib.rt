// The frame call at one node on its record in lent bytes, on any input: messages of one sender, handled in turn. All
// that can refuse a frame is judged before the first byte is written: the layout of every message, and staleness, which
// depends on the messages before, on a copy of the numbers that it looks at.
#![tactic(auto)]

mod marks;

ghost use Rattle.std.specs.Prelude.{◌≡◌, ◌≤◌, length};
ghost use Rattle.octets.specs.Test.{pick};
ghost use Rattle.view.specs.Size.{nodes};
ghost use Rattle.wire.specs.Codec.{front};
ghost use Rattle.refusal.specs.Refusal.{answer};
ghost use Rattle.events.specs.Outcome.{fault};
ghost use Rattle.region.specs.Record.{record_size, record_of};
ghost use Rattle.calls_bytes.specs.Frame.{is_ending, one_by_one, frame as frame_call};
ghost use Rattle.node_bytes.specs.Called.{Shows};
ghost use Rattle.frame_bytes.specs.Judged.{verdict, Goes};

use calls_bytes::{FRAME, FRAME_OUTPUT};
use marks::{heard_from, is_late, last_tags, note, top_after};
use node_bytes::{Called, admission, take_message};
use octets::get_word;
use refusal::Refusal;
use region::places::MAXTAG_PLACE;
use step::Ending;
use view::VIEW;
use wire::Message;
use wire_parse::parse_prefix;
use wire_parse::views::found_view;

// Refuses the messages of a frame, taken in turn on this record: with 7 if any is not of the layout, else with 9 if any
// is given it. `first` is what was found at its front.
fn judge(
    r: &[u8],
    n: usize,
    s: usize,
    b: &[u8],
    first: Result<(Message, usize), Refusal>,
) -> Result<(), Refusal>
    requires { (length r.now ≡ record_size) × (1 ≤ n) × (n ≤ nodes) × (1 ≤ s) × (s ≤ n)
        × (answer first ≡ front n b.now) }
    ensures { fault result ≡ verdict n s (record_of r.now) b.now }
{
    let mut heard = heard_from(r, n, s);
    let mut last = last_tags(r, n);
    let mut top = get_word(r, MAXTAG_PLACE);
    let mut t = b;
    let mut f = first;
    let mut stale = false;
    while !t.is_empty() {
        let Ok((m, k)) = f else {
            return Err(Refusal::Layout)
        };
        stale |= is_late(&heard, &last, top, m);
        note(&mut heard, &mut last, m);
        top = top_after(top, m);
        t = &t[k..];
        f = parse_prefix(n, t);
    }
    if stale { Err(Refusal::Value) } else { Ok(()) }
}

// The ending of messages in turn: the first that came.
fn first_ending(x: Ending, later: Ending) -> Ending
    ensures { result ≡ pick (is_ending x) x later }
{
    match x {
        Ending::None => later,
        _ => x,
    }
}

// Handles the messages of a frame that nothing refuses, one after the other; each writes after what those before it
// have sent. `first` is what was found at its front.
fn take_all(
    r: &mut [u8],
    n: usize,
    s: usize,
    b: &[u8],
    first: Result<(Message, usize), Refusal>,
    out: &mut [u8],
    view: &mut [u8; VIEW],
) -> Result<Called, Refusal>
    requires { Goes r.old n s b.now out.old × (answer first ≡ front n b.now) }
    ensures { Shows result r.new out.new view.new
        (one_by_one r.old s b.now out.old) view.old }
{
    let mut t = b;
    let mut f = first;
    let mut at = 0;
    let mut ending = Ending::None;
    while !t.is_empty() {
        let Ok((m, k)) = f else {
            return Err(Refusal::Layout)
        };
        let a = take_message(r, n, s, &t[..k], found_view(t, f), m, &mut out[at..], view)?;
        at += a.length;
        ending = first_ending(ending, a.ending);
        t = &t[k..];
        f = parse_prefix(n, t);
    }
    Ok(Called { ending, length: at })
}

// Handles a frame from node s; the messages that it gives rise to go to `out`, the view of a scan that ends to `view`.
// It refuses with 12, 2, 3, 14, 7, 9. One message alone is handled as in the message call: it is judged before anything
// is written, so it need not be judged apart.
pub fn frame(
    r: &mut [u8],
    s: usize,
    b: &[u8],
    out: &mut [u8],
    view: &mut [u8; VIEW],
) -> Result<Called, Refusal>
    ensures { Shows result r.new out.new view.new
        (frame_call r.old s b.now out.old) view.old }
{
    let n = admission(r, FRAME_OUTPUT, out.len())?;
    if !(1 <= s && s <= n) {
        return Err(Refusal::Node);
    }
    if !(1 <= b.len() && b.len() <= FRAME) {
        return Err(Refusal::Frame);
    }
    let f = parse_prefix(n, b);
    match f {
        Ok((m, end)) => {
            if end == b.len() {
                return take_message(r, n, s, b, found_view(b, f), m, out, view);
            }
            judge(r, n, s, b, f)?;
            take_all(r, n, s, b, f, out, view)
        }
        Err(_) => Err(Refusal::Layout),
    }
}
