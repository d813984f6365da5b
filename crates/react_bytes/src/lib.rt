// The handlers of the seven kinds of message on the bytes of a record: what `react` does to a record by value,
// done where the record lies. Few bytes change in most events, so neither is the record read whole nor written whole.
#![tactic(auto)]

pub mod tables;

ghost use Rattle.std.specs.Prelude.{◌≡◌, true, ◌≤◌, ltb, length};
ghost use Rattle.view.specs.Size.{nodes, view_size};
ghost use Rattle.view.specs.View.{view_of};
ghost use Rattle.record.specs.Record.{with_wait};
ghost use Rattle.record.specs.Usable.{stale};
ghost use Rattle.step.specs.React.{raised, is_new, received, keep, react};
ghost use Rattle.region.specs.Record.{record_size, record_of, record_bytes};
ghost use Rattle.step.specs.Stale.{stale_message, writer_within};
ghost use Rattle.react_bytes.specs.Handled.{entered, view_there};

use decide::{read_wait, round_holds, sent_where, write_sent, write_wait};
use octets::{WORD, get_word, put_bytes, put_word};
use record::Wait;
use record::usable::is_stale_tag;
use region::head::{Head, head_of, load_wait, save_head, save_wait};
use region::places::{
    ATMAX_IN, ATMAX_PLACE, ATROUND_IN, HEARD_PLACE, KEPT_IN, KEPT_PLACE, LAST_IN, MAXTAG_PLACE,
    REQUEST_PLACE,
};
use region::stored::save_view;
use step::Sent;
use tables::{heard_in, newest_in, put_where, tag_in};
use view::{NODES, Report, read_view};
use wire::Message;

// The record waits for something else.
pub fn waiting_in(r: &mut [u8], w: Wait)
    requires { length r.old ≡ record_size }
    ensures { r.new ≡ record_bytes (with_wait (record_of r.old) w) }
{
    save_wait(r, w);
}

// A tag above `maxtag` raises it, and with it the reports held for it; whether it does.
fn raised_in(r: &mut [u8], t: u64) -> bool
    requires { length r.old ≡ record_size }
    ensures { (result ≡ ltb (record_of r.old).maxtag t)
        × (r.new ≡ record_bytes (raised (record_of r.old) t)) }
{
    let grows = get_word(r, MAXTAG_PLACE) < t;
    if grows {
        let h = head_of(r);
        put_bytes(r, ATMAX_PLACE, &newest_in(r, t));
        save_head(r, Head { maxtag: t, ..h });
    } else {
        waiting_in(r, load_wait(r));
    }
    grows
}

// The tag heard from s for w, and the entries of the views that the flags say.
fn enter(r: &mut [u8], s: usize, w: usize, t: u64, p: Report, fresh: bool, held: bool, round: bool)
    requires { (length r.old ≡ record_size) × (1 ≤ s) × (s ≤ nodes) × (1 ≤ w) × (w ≤ nodes) }
    ensures { r.new ≡ entered s w t p fresh held round r.old }
{
    put_word(r, HEARD_PLACE + WORD * ((s - 1) * NODES + (w - 1)), t);
    put_where(fresh, r, LAST_IN, w, t, p);
    put_where(held, r, ATMAX_IN, w, t, p);
    put_where(round, r, ATROUND_IN, w, t, p);
}

// A value of writer w from sender s; whether it is new.
fn received_in(r: &mut [u8], s: usize, w: usize, t: u64, p: Report) -> bool
    requires { (length r.old ≡ record_size) × (1 ≤ s) × (s ≤ nodes) × (1 ≤ w) × (w ≤ nodes) }
    ensures { (result ≡ is_new (record_of r.old) w t)
        × (r.new ≡ record_bytes (received (record_of r.old) s w t p)) }
{
    let h = head_of(r);
    let fresh = tag_in(r, LAST_IN, w) < t;
    let held = fresh && t <= h.maxtag;
    let round = fresh && round_holds(h.wait, t);
    enter(r, s, w, t, p, fresh, held, round);
    save_head(r, h);
    fresh
}

// Of the good messages the one with the greatest tag is kept; `v` has the view of this one.
fn kept_in(r: &mut [u8], n: usize, t: u64, v: &[u8])
    requires { (length r.old ≡ record_size) × (n ≤ nodes) × (view_size n ≤ length v.now) }
    ensures { r.new ≡ record_bytes (keep (record_of r.old) t (view_of n v.now)) }
{
    if get_word(r, KEPT_PLACE) < t {
        let h = head_of(r);
        save_view(r, KEPT_IN, read_view(n, v));
        save_head(r, Head { kept: t, ..h });
    } else {
        waiting_in(r, load_wait(r));
    }
}

// The handler of each kind; `v` has the view of a good message. What it sends is the answer.
pub fn react_in(r: &mut [u8], n: usize, s: usize, m: Message, v: &[u8]) -> Sent
    requires { (length r.old ≡ record_size) × (n ≤ nodes) × (view_there n m v.now ≡ true) × (1 ≤ s) × (s ≤ nodes)
        × (writer_within nodes m ≡ true) }
    ensures { (result ≡ (react (record_of r.old) s m (view_of n v.now)).outbox.handler)
        × (r.new ≡ record_bytes (react (record_of r.old) s m (view_of n v.now)).node) }
{
    match m {
        Message::Read { request } => {
            let tag = get_word(r, MAXTAG_PLACE);
            waiting_in(r, load_wait(r));
            Sent::One(Message::ReadAnswer { request, tag })
        }
        Message::ReadAnswer { request, tag } => {
            waiting_in(
                r,
                read_wait(load_wait(r), get_word(r, REQUEST_PLACE), s, request, tag),
            );
            Sent::Nothing
        }
        Message::Write { request, tag } => write_sent(raised_in(r, tag), request, tag),
        Message::WriteAnswer { request, tag } => {
            waiting_in(
                r,
                write_wait(load_wait(r), get_word(r, REQUEST_PLACE), s, request, tag),
            );
            Sent::Nothing
        }
        Message::Echo { tag } => sent_where(raised_in(r, tag), m),
        Message::Value {
            tag,
            writer,
            report,
        } => sent_where(received_in(r, s, writer, tag, report), m),
        Message::Good { tag } => {
            kept_in(r, n, tag, v);
            Sent::Nothing
        }
    }
}

// Whether a message from s is refused with 9.
pub fn is_stale_in(r: &[u8], s: usize, m: Message) -> bool
    requires { (length r.now ≡ record_size) × (1 ≤ s) × (s ≤ nodes) × (writer_within nodes m ≡ true) }
    ensures { result ≡ stale_message (record_of r.now) s m }
{
    match m {
        Message::Value { tag, writer, .. } => stale_in(r, s, writer, tag),
        _ => false,
    }
}

fn stale_in(r: &[u8], s: usize, w: usize, t: u64) -> bool
    requires { (length r.now ≡ record_size) × (1 ≤ s) × (s ≤ nodes) × (1 ≤ w) × (w ≤ nodes) }
    ensures { result ≡ stale (record_of r.now) s w t }
{
    is_stale_tag(
        heard_in(r, s, w),
        tag_in(r, LAST_IN, w),
        get_word(r, MAXTAG_PLACE),
        t,
    )
}
