// What a pass leads to where it moves the operation on, on the record's bytes: a round opens, the operation ends, or it
// borrows. Each answers with what the step gives; `sent` went to node `to` before.
ghost use Rattle.std.specs.Prelude.{◌≡◌, ◌+◌, ◌≤◌, length};
ghost use Rattle.view.specs.Size.{limit, nodes};
ghost use Rattle.record.specs.Record.{closed};
ghost use Rattle.record.specs.declared.Wait.TheVariants.{Idle};
ghost use Rattle.step.specs.declared.Rule.TheVariants.{Borrowed};
ghost use Rattle.step.specs.Step.{started, ended, ending_of};
ghost use Rattle.step.specs.Move.{opened, next_tag, after_read, lent_view, after_good, after_failed, borrows};
ghost use Rattle.region.specs.Record.{record_size, record_of, record_bytes};
ghost use Rattle.step_bytes.specs.Moved.{IsStep, rested_of};

use crate::Effect;
use decide::{ending_of, next_tag};
use octets::{get_word, put_bytes};
use react_bytes::tables::newest_in;
use record::{Kind, Operation, Wait};
use region::head::{Head, head_of, save_head};
use region::places::{
    ATROUND_IN, ATROUND_PLACE, KEPT_IN, KEPT_PLACE, MAXTAG_PLACE, OWN_PLACE, REQUEST_PLACE,
};
use region::stored::load_view;
use step::{Ending, Outbox, Rule, Sent};
use view::{LIMIT, VIEW, View, absent};
use wire::Message;

// Nothing comes after what was sent. In a cluster this is what most steps give, and so it is made in its place.
pub fn rested(to: usize, sent: Sent) -> Effect
    ensures { result ≡ rested_of to sent }
{
    Effect {
        outbox: Outbox {
            to,
            handler: sent,
            reading: Sent::Nothing,
            comparing: Sent::Nothing,
            view: absent(),
        },
        ending: Ending::None,
        view: absent(),
    }
}

// A round opens: the next request number, nobody counted, the newest reports not above t held for it.
fn open_in(r: &mut [u8], k: Kind, i: u64, t: u64)
    requires { (length r.old ≡ record_size) × ((record_of r.old).request ≤ limit) }
    ensures { r.new ≡ record_bytes (opened (record_of r.old) k i t) }
{
    let h = head_of(r);
    let request = h.request + 1;
    let wait = Wait::Writing {
        kind: k,
        round: i,
        tag: t,
        answered: 0,
    };
    put_bytes(r, ATROUND_PLACE, &newest_in(r, t));
    save_head(r, Head { request, wait, ..h });
}

// No round is open, and no report is held for one.
fn close_in(r: &mut [u8], w: Wait)
    requires { length r.old ≡ record_size }
    ensures { r.new ≡ record_bytes (closed (record_of r.old) w) }
{
    let h = head_of(r);
    r[ATROUND_PLACE..ATROUND_PLACE + VIEW].fill(0);
    save_head(r, Head { wait: w, ..h });
}

// A quorum of read answers is there, and the tag used is t: an update sends its value and opens round 0, unless no tag
// is left for it; a scan opens round 1.
pub fn read_in(r: &mut [u8], to: usize, sent: Sent, o: Operation, t: u64) -> Effect
    requires { (length r.old ≡ record_size) × ((record_of r.old).request ≤ limit) × (t ≤ limit) }
    ensures { IsStep result r.new
        (after_read (started (record_of r.old) to sent) (record_of r.old) o t) }
{
    let write = Message::Write {
        request: get_word(r, REQUEST_PLACE) + 1,
        tag: t,
    };
    let e = rested(to, sent);
    match o {
        Operation::Update(report) => {
            if t == LIMIT {
                close_in(r, Wait::Idle);
                return Effect {
                    ending: Ending::Spent,
                    ..e
                };
            }
            let value = Message::Value {
                tag: t + 1,
                writer: get_word(r, OWN_PLACE) as usize,
                report,
            };
            open_in(r, Kind::Update, 0, t);
            Effect {
                outbox: Outbox {
                    reading: Sent::Two(value, write),
                    ..e.outbox
                },
                ..e
            }
        }
        Operation::Scan => {
            open_in(r, Kind::Scan, 1, t);
            Effect {
                outbox: Outbox {
                    reading: Sent::One(write),
                    ..e.outbox
                },
                ..e
            }
        }
    }
}

// The tag of the round after round i with tag t.
fn next_in(r: &[u8], i: u64, t: u64) -> u64
    requires { (length r.now ≡ record_size) × (t ≤ limit) }
    ensures { result ≡ next_tag (record_of r.now).maxtag i t }
{
    next_tag(get_word(r, MAXTAG_PLACE), i, t)
}

// A good round: after round 0 the next one opens, any other ends the operation. Its view is of n places.
pub fn good_in(r: &mut [u8], n: usize, to: usize, sent: Sent, k: Kind, i: u64, t: u64) -> Effect
    requires { (length r.old ≡ record_size) × ((record_of r.old).n ≡ n) × (n ≤ nodes)
        × ((record_of r.old).request ≤ limit) × (t ≤ limit) }
    ensures { IsStep result r.new
        (after_good (started (record_of r.old) to sent) (record_of r.old) k i t) }
{
    let e = rested(to, sent);
    let held = load_view(r, ATROUND_IN, n);
    let good = Message::Good { tag: t };
    if i == 0 {
        let next = next_in(r, 0, t);
        let write = Message::Write {
            request: get_word(r, REQUEST_PLACE) + 1,
            tag: next,
        };
        open_in(r, k, 1, next);
        return Effect {
            outbox: Outbox {
                comparing: Sent::Two(good, write),
                view: held,
                ..e.outbox
            },
            ..e
        };
    }
    close_in(r, Wait::Idle);
    Effect {
        outbox: Outbox {
            comparing: Sent::One(good),
            view: held,
            ..e.outbox
        },
        ending: ending_of(k, Rule::Direct(i)),
        view: held,
    }
}

// The operation ends with the view of the good message kept.
pub fn lend_in(r: &mut [u8], n: usize, to: usize, sent: Sent, k: Kind) -> Effect
    requires { (length r.old ≡ record_size) × ((record_of r.old).n ≡ n) × (n ≤ nodes) }
    ensures { IsStep result r.new
        (ended (started (record_of r.old) to sent) (closed (record_of r.old) Idle)
        (ending_of k Borrowed) (lent_view (record_of r.old))) }
{
    let view = load_view(r, KEPT_IN, n);
    close_in(r, Wait::Idle);
    Effect {
        ending: ending_of(k, Rule::Borrowed),
        view,
        ..rested(to, sent)
    }
}

// A failed round: the next one opens; after the third the operation borrows, now if it can.
pub fn failed_in(r: &mut [u8], n: usize, to: usize, sent: Sent, k: Kind, i: u64, t: u64) -> Effect
    requires { (length r.old ≡ record_size) × ((record_of r.old).n ≡ n) × (n ≤ nodes)
        × ((record_of r.old).request ≤ limit) × (t ≤ limit) }
    ensures { IsStep result r.new
        (borrows (after_failed (started (record_of r.old) to sent) (record_of r.old) k i t)) }
{
    if i < 3 {
        let next = next_in(r, i, t);
        let write = Message::Write {
            request: get_word(r, REQUEST_PLACE) + 1,
            tag: next,
        };
        open_in(r, k, i + 1, next);
        let e = rested(to, sent);
        return Effect {
            outbox: Outbox {
                comparing: Sent::One(write),
                ..e.outbox
            },
            ..e
        };
    }
    if t <= get_word(r, KEPT_PLACE) {
        return lend_in(r, n, to, sent, k);
    }
    close_in(r, Wait::Borrowing { kind: k, tag: t });
    rested(to, sent)
}
