// What decides in a step, on numbers and enums alone: which answers count, what an open round holds, what is sent and
// whether it is forwarded, the next round's tag, the ending. The step by value and the step on a record's bytes call
// these, and so does what writes the messages of a step.
#![tactic(auto)]

ghost use Rattle.std.specs.Prelude.{◌≡◌, ◌≤◌};
ghost use Rattle.octets.specs.Test.{pick};
ghost use Rattle.view.specs.Size.{nodes, limit};
ghost use Rattle.step.specs.Forward.{is_forward};
ghost use Rattle.step.specs.Step.{ending_of};
ghost use Rattle.step.specs.React.{read_wait, write_wait, round_holds};
ghost use Rattle.step.specs.Move.{next_tag};

use record::{Kind, Wait};
use step::{Ending, Rule, Sent};
use table::quorum::{is_member, with_member};
use wire::Message;

// The wait after a read answer from s with number q and tag t.
pub fn read_wait(wait: Wait, request: u64, s: usize, q: u64, t: u64) -> Wait
    requires { (1 ≤ s) × (s ≤ nodes) }
    ensures { result ≡ read_wait request s q t wait }
{
    match wait {
        Wait::Reading {
            operation,
            answered,
            largest,
        } if q == request && !is_member(answered, s) => Wait::Reading {
            operation,
            answered: with_member(answered, s),
            largest: largest.max(t),
        },
        _ => wait,
    }
}

// The wait after a write answer from s with number q and tag t.
pub fn write_wait(wait: Wait, request: u64, s: usize, q: u64, t: u64) -> Wait
    requires { (1 ≤ s) × (s ≤ nodes) }
    ensures { result ≡ write_wait request s q t wait }
{
    match wait {
        Wait::Writing {
            kind,
            round,
            tag,
            answered,
        } if q == request && t == tag && !is_member(answered, s) => {
            Wait::Writing {
                kind,
                round,
                tag,
                answered: with_member(answered, s),
            }
        }
        _ => wait,
    }
}

// Whether a round is open whose tag is at least t.
pub fn round_holds(wait: Wait, t: u64) -> bool
    ensures { result ≡ round_holds wait t }
{
    match wait {
        Wait::Writing { tag, .. } | Wait::Comparing { tag, .. } => t <= tag,
        Wait::Idle | Wait::Reading { .. } | Wait::Borrowing { .. } => false,
    }
}

// The message where the flag says so, and nothing else.
pub fn sent_where(flag: bool, m: Message) -> Sent
    ensures { result ≡ pick flag (Sent.One m) Sent.Nothing }
{
    if flag { Sent::One(m) } else { Sent::Nothing }
}

// What the write of tag t is answered with: first its echo, where it raised `maxtag`.
pub fn write_sent(grown: bool, q: u64, t: u64) -> Sent
    ensures { result ≡ pick grown (Sent.Two (Message.Echo t) (Message.WriteAnswer q t))
        (Sent.One (Message.WriteAnswer q t)) }
{
    let answer = Message::WriteAnswer { request: q, tag: t };
    if grown {
        Sent::Two(Message::Echo { tag: t }, answer)
    } else {
        Sent::One(answer)
    }
}

// The tag of the round after round i with tag r.
pub fn next_tag(maxtag: u64, i: u64, r: u64) -> u64
    requires { r ≤ limit }
    ensures { result ≡ next_tag maxtag i r }
{
    if i == 0 { maxtag.max(r + 1) } else { maxtag }
}

// The ending of an operation of this kind, by this rule.
pub fn ending_of(k: Kind, rule: Rule) -> Ending
    ensures { result ≡ ending_of k rule }
{
    match k {
        Kind::Update => Ending::Done(rule),
        Kind::Scan => Ending::Scan(rule),
    }
}

// Whether a part of a step is one value alone: of a handler, the value that it forwards.
pub fn is_forward(s: Sent) -> bool
    ensures { result ≡ is_forward s }
{
    matches!(s, Sent::One(Message::Value { .. }))
}
