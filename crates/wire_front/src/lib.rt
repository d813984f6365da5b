// The message at the front of bytes: the reader's tests of the layout.
#![tactic(auto)]

ghost use Rattle.std.specs.Prelude.{◌≡◌, ◌+◌, ◌≤◌, length, get_or, leb, Some, None, []};
ghost use Rattle.octets.specs.Answer.{returned, refused};
ghost use Rattle.octets.specs.Test.{pick, both};
ghost use Rattle.octets.specs.Word.{word};
ghost use Rattle.refusal.specs.Refusal.{answer};
ghost use Rattle.view.specs.Size.{nodes, report_size, view_size};
ghost use Rattle.wire.specs.Layout.{allowed, is_request, is_tag, message_size};
ghost use Rattle.wire.specs.Layout.{head_size, number_size, first_head, first_at, second_at, third_at, good_head};
ghost use Rattle.wire.specs.Codec.{said, said_as, view_at};
ghost use Rattle.wire.specs.Shape.{head_at, two_heads, two_shape, value_heads, good_heads, shape_as, shape};

use refusal::Refusal;
use view::{ENTRY, REPORT};
use wire::{
    ECHO, FIRST, FIRST_HEAD, GOOD_HEAD, Message, NUMBER, READ, READ_ANSWER, SECOND, SECOND_HEAD,
    THIRD, THIRD_HEAD, VALUE, WRITE, WRITE_ANSWER, is_held, is_pair, is_request, is_sent,
};

// The length in the head of a number, and of a report.
const NUMBER_LENGTH: u16 = NUMBER as u16;

const REPORT_LENGTH: u16 = REPORT as u16;

// Whether a field's mark and length stand at a place.
fn has_head(b: &[u8], at: usize, mark: u8, size: u16) -> bool
    requires { at + head_size ≤ length b.now }
    ensures { result ≡ head_at b.now at mark size }
{
    b[at] == mark && u16::from_be_bytes([b[at + 1], b[at + 2]]) == size
}

#[tactic(auto, unfolding(wire::specs::Shape::two_heads))]
fn has_two(b: &[u8]) -> bool
    requires { second_at + number_size ≤ length b.now }
    ensures { result ≡ two_heads b.now }
{
    has_head(b, FIRST_HEAD, 2, NUMBER_LENGTH) && has_head(b, SECOND_HEAD, 3, NUMBER_LENGTH)
}

#[tactic(auto, unfolding(wire::specs::Shape::value_heads))]
fn has_value(b: &[u8]) -> bool
    requires { third_at + report_size ≤ length b.now }
    ensures { result ≡ value_heads b.now }
{
    has_head(b, FIRST_HEAD, 3, NUMBER_LENGTH)
        && has_head(b, SECOND_HEAD, 4, 1)
        && has_head(b, THIRD_HEAD, 5, REPORT_LENGTH)
}

#[tactic(auto, unfolding(wire::specs::Shape::good_heads))]
fn has_good(n: usize, b: &[u8]) -> bool
    requires { (n ≤ nodes) × (good_head ≤ length b.now) }
    ensures { result ≡ good_heads n b.now }
{
    has_head(b, FIRST_HEAD, 3, NUMBER_LENGTH) && has_head(b, SECOND_HEAD, 6, (ENTRY * n) as u16)
}

// The number of a message that has one, after its mark.
fn one_number(b: &[u8], mark: u8) -> Option<u64>
    requires { first_at + number_size ≤ length b.now }
    ensures { result ≡ pick (both (head_at b.now first_head mark number_size) (is_request (word b.now first_at)))
        (Some (word b.now first_at)) None }
{
    let x = octets::get_word(b, FIRST);
    if has_head(b, FIRST_HEAD, mark, NUMBER_LENGTH) && is_request(x) {
        Some(x)
    } else {
        None
    }
}

// The request and the tag of a message that has both.
fn two_numbers(b: &[u8]) -> Option<(u64, u64)>
    requires { first_at + number_size ≤ length b.now }
    ensures { result ≡ pick (both (two_shape b.now)
        (both (is_request (word b.now first_at)) (is_tag (word b.now second_at))))
        (Some (word b.now first_at, word b.now second_at)) None }
{
    if b.len() < SECOND + NUMBER {
        return None;
    }
    let request = octets::get_word(b, FIRST);
    let tag = octets::get_word(b, SECOND);
    if has_two(b) && is_pair(request, tag) {
        Some((request, tag))
    } else {
        None
    }
}

// A value's message.
#[tactic(auto, unfolding(wire::specs::Layout::allowed, octets::specs::Bytes::part))]
fn value(n: usize, b: &[u8]) -> Option<Message>
    requires { first_at + number_size ≤ length b.now }
    ensures { result ≡ pick (both (both (leb (third_at + report_size) (length b.now)) (value_heads b.now))
        (allowed n (said_as 6 b.now) [])) (Some (said_as 6 b.now)) None }
{
    if b.len() < VALUE {
        return None;
    }
    let tag = octets::get_word(b, FIRST);
    let writer = usize::from(b[SECOND]);
    if has_value(b) && is_sent(n, tag, writer) {
        let report = view::read_report(&b[THIRD..VALUE]);
        Some(Message::Value {
            tag,
            writer,
            report,
        })
    } else {
        None
    }
}

// A good message, if its view may stand beside it.
#[tactic(auto, unfolding(wire::specs::Layout::allowed, octets::specs::Bytes::part))]
fn good(n: usize, b: &[u8]) -> Option<Message>
    requires { (n ≤ nodes) × (first_at + number_size ≤ length b.now) }
    ensures { result ≡ pick (both (both (leb (good_head + view_size n) (length b.now)) (good_heads n b.now))
        (allowed n (said_as 7 b.now) (view_at n b.now))) (Some (said_as 7 b.now)) None }
{
    let end = GOOD_HEAD + ENTRY * n;
    if b.len() < end {
        return None;
    }
    let tag = octets::get_word(b, FIRST);
    if has_good(n, b) && is_held(n, tag, &b[GOOD_HEAD..end]) {
        Some(Message::Good { tag })
    } else {
        None
    }
}

// The message of the kind that byte 3 says and its length, if the fields of that kind stand in b. Numbers are judged
// before the message is made of them, so that it is written once.
#[tactic(auto, unfolding(wire::specs::Shape::shape_as, wire::specs::Codec::said, wire::specs::Layout::allowed, wire::specs::Layout::message_size))]
fn of_kind(n: usize, b: &[u8]) -> Option<(Message, usize)>
    requires { (n ≤ nodes) × (first_at + number_size ≤ length b.now) }
    ensures { result ≡ pick (both (shape_as (get_or b.now 3 0) n b.now)
        (allowed n (said b.now) (view_at n b.now)))
        (Some (said b.now, message_size n (said b.now))) None }
{
    match b[3] {
        1 => one_number(b, 2).map(|request| (Message::Read { request }, READ)),
        2 => two_numbers(b).map(|(request, tag)| (
            Message::ReadAnswer { request, tag },
            READ_ANSWER,
        )),
        3 => two_numbers(b).map(|(request, tag)| (Message::Write { request, tag }, WRITE)),
        4 => two_numbers(b).map(|(request, tag)| (
            Message::WriteAnswer { request, tag },
            WRITE_ANSWER,
        )),
        5 => one_number(b, 3).map(|tag| (Message::Echo { tag }, ECHO)),
        6 => value(n, b).map(|m| (m, VALUE)),
        7 => good(n, b).map(|m| (m, GOOD_HEAD + ENTRY * n)),
        _ => None,
    }
}

// The message at the front of b and its length.
#[tactic(auto, unfolding(wire::specs::Shape::shape))]
pub fn at_front(n: usize, b: &[u8]) -> Result<(Message, usize), Refusal>
    requires { n ≤ nodes }
    ensures { answer result ≡ pick (both (shape n b.now)
        (allowed n (said b.now) (view_at n b.now)))
        (returned (said b.now, message_size n (said b.now))) (refused 7) }
{
    if b.len() < READ || !has_head(b, 0, 1, 1) {
        return Err(Refusal::Layout);
    }
    of_kind(n, b).ok_or(Refusal::Layout)
}
