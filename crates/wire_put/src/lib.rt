// Writing the fields of a message at the front of a buffer: its length, or 12 where there is no room. A message that is
// known to be allowed and to have room is written by `short`, which judges nothing. The heads of fields are written as
// the bytes that they are: a word that the next field covers would be slow where it lies across the end of a page.
#![tactic(auto)]

ghost use Rattle.std.specs.Prelude.{◌≡◌, true, [], ◌++◌, ◌≤◌, length, leb};
ghost use Rattle.octets.specs.Answer.{returned, refused};
ghost use Rattle.octets.specs.Test.{pick};
ghost use Rattle.octets.specs.Bytes.{be, put};
ghost use Rattle.refusal.specs.Refusal.{answer};
ghost use Rattle.view.specs.Size.{nodes, view_size};
ghost use Rattle.wire.specs.Layout.{field, kind, tag, request, writer, report, view, number_size};
ghost use Rattle.wire.specs.Layout.{one_size, two_size, value_size, encode, allowed};
ghost use Rattle.wire.specs.Codec.{after};

use refusal::Refusal;
use view::Report;
use wire::{FIRST, GOOD_HEAD, Message, NUMBER, READ, SECOND, SECOND_HEAD, THIRD, VALUE};

// Writes a message of two fields, its kind and a number, and answers its length.
fn put_one(out: &mut [u8], k: u8, mark: u8, x: u64) -> usize
    requires { one_size ≤ length out.old }
    ensures { (result ≡ one_size) × (out.new ≡ put out.old 0 (kind k ++ field mark (be number_size x))) }
{
    octets::put_bytes(out, 0, &[1, 0, 1, k, mark, 0, 8]);
    octets::put_word(out, FIRST, x);
    READ
}

// Writes a message of three fields, its kind, a request number and a tag, likewise.
fn put_two(out: &mut [u8], k: u8, r: u64, t: u64) -> usize
    requires { two_size ≤ length out.old }
    ensures { (result ≡ two_size) × (out.new ≡ put out.old 0 (kind k ++ request r ++ tag t)) }
{
    put_one(out, k, 2, r);
    octets::put_bytes(out, SECOND_HEAD, &[3, 0, 8]);
    octets::put_word(out, SECOND, t);
    SECOND + NUMBER
}

// Writes a value, its tag, its writer and its report, likewise.
fn put_value(out: &mut [u8], t: u64, w: u8, p: Report) -> usize
    requires { value_size ≤ length out.old }
    ensures { (result ≡ value_size) × (out.new ≡ put out.old 0 (kind 6 ++ tag t ++ writer w ++ report p)) }
{
    put_one(out, 6, 3, t);
    octets::put_bytes(out, SECOND_HEAD, &[4, 0, 1, w, 5, 0, 8]);
    octets::put_bytes(out, THIRD, &view::report_bytes(p));
    VALUE
}

pub fn one(out: &mut [u8], k: u8, mark: u8, x: u64) -> Result<usize, Refusal>
    ensures { (answer result ≡ pick (leb (length (kind k ++ field mark (be number_size x)))
        (length out.old)) (returned (length (kind k ++ field mark (be number_size x)))) (refused 12))
        × (out.new ≡ after (answer result) (kind k ++ field mark (be number_size x)) out.old) }
{
    if out.len() < READ {
        return Err(Refusal::Length);
    }
    Ok(put_one(out, k, mark, x))
}

pub fn two(out: &mut [u8], k: u8, r: u64, t: u64) -> Result<usize, Refusal>
    ensures { (answer result ≡ pick (leb (length (kind k ++ request r ++ tag t)) (length out.old))
        (returned (length (kind k ++ request r ++ tag t))) (refused 12))
        × (out.new ≡ after (answer result) (kind k ++ request r ++ tag t) out.old) }
{
    if out.len() < SECOND + NUMBER {
        return Err(Refusal::Length);
    }
    Ok(put_two(out, k, r, t))
}

pub fn value(out: &mut [u8], t: u64, w: u8, p: Report) -> Result<usize, Refusal>
    ensures { (answer result
        ≡ pick (leb (length (kind 6 ++ tag t ++ writer w ++ report p)) (length out.old))
        (returned (length (kind 6 ++ tag t ++ writer w ++ report p))) (refused 12))
        × (out.new ≡ after (answer result) (kind 6 ++ tag t ++ writer w ++ report p) out.old) }
{
    if out.len() < VALUE {
        return Err(Refusal::Length);
    }
    Ok(put_value(out, t, w, p))
}

pub fn good(out: &mut [u8], t: u64, v: &[u8]) -> Result<usize, Refusal>
    requires { length v.now ≤ view_size nodes }
    ensures { (answer result
        ≡ pick (leb (length (kind 7 ++ tag t ++ view v.now)) (length out.old))
        (returned (length (kind 7 ++ tag t ++ view v.now))) (refused 12))
        × (out.new ≡ after (answer result) (kind 7 ++ tag t ++ view v.now) out.old) }
{
    let end = GOOD_HEAD + v.len();
    if out.len() < end {
        return Err(Refusal::Length);
    }
    put_one(out, 7, 3, t);
    let [high, low] = (v.len() as u16).to_be_bytes();
    octets::put_bytes(out, SECOND_HEAD, &[6, high, low]);
    octets::put_bytes(out, GOOD_HEAD, v);
    Ok(end)
}

// Writes a message that carries no view and is known to be allowed, where there is room for it, and answers its length.
// It judges nothing. A good one lacks its view here, so it is not allowed.
#[tactic(auto, unfolding(wire::specs::Layout::encode))]
pub fn short(m: Message, out: &mut [u8]) -> usize
    requires { (allowed nodes m [] ≡ true) × (length (encode m []) ≤ length out.old) }
    ensures { (result ≡ length (encode m []))
        × (out.new ≡ put out.old 0 (encode m [])) }
{
    match m {
        Message::Read { request } => put_one(out, 1, 2, request),
        Message::ReadAnswer { request, tag } => put_two(out, 2, request, tag),
        Message::Write { request, tag } => put_two(out, 3, request, tag),
        Message::WriteAnswer { request, tag } => put_two(out, 4, request, tag),
        Message::Echo { tag } => put_one(out, 5, 3, tag),
        Message::Value {
            tag,
            writer,
            report,
        } => put_value(out, tag, writer as u8, report),
        Message::Good { .. } => 0,
    }
}
