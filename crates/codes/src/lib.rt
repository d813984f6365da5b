// The numbers that stand for enums at the border to C: codes of answers, the numbers and the report of a message, the
// extent of a cut; and the view of a scan that ended, written into lent memory.
#![tactic(auto)]

ghost use Rattle.std.specs.Prelude.{◌≡◌, ◌≤◌};
ghost use Rattle.octets.specs.Answer.{returned};
ghost use Rattle.refusal.specs.Refusal.{answer};
ghost use Rattle.view.specs.declared.View.{View};
ghost use Rattle.step.specs.Told.{told};
ghost use Rattle.events.specs.Outcome.{answer_of, told_by};
ghost use Rattle.calls_bytes.specs.Shown.{event_view};
ghost use Rattle.codes.specs.Code.{lent, numbers, report_in, message_of};
ghost use Rattle.codes.specs.Code.{extent_of, rule_code, rule_in, event_code, route_of};

use calls_bytes::show_view;
use events::Reply;
use outgoing::Extent;
use outgoing::entries::is_answer;
use refusal::Refusal;
use step::{Ending, Rule, SPENT};
use view::{REPORT, Report, VIEW};
use wire::Message;

// The first code of an update done and of a scan ended, to which the rule is added. Below them stand 0, where nothing
// ended, the refusals and spent.
const DONE: u8 = 100;

const SCAN: u8 = 110;

// The two ways that a message of an output goes: to all nodes, or to the sender of the message that was handled.
const TO_ALL: u8 = 0;

const TO_SENDER: u8 = 1;

pub fn extent_of(cut: bool, m: usize) -> Extent
    ensures { result ≡ extent_of cut m }
{
    if cut { Extent::Cut(m) } else { Extent::Whole }
}

fn rule_code(r: Rule) -> u8
    ensures { (result ≡ rule_code r) × (result ≤ 3) }
{
    match r {
        Rule::Direct(i) => i.min(3) as u8,
        Rule::Borrowed => 0,
    }
}

fn ending_code(e: Ending) -> u8
    ensures { ((v : View) → result ≡ event_code (told (returned e) v) (rule_in (returned e))) }
{
    match e {
        Ending::None => 0,
        Ending::Done(r) => DONE + rule_code(r),
        Ending::Scan(r) => SCAN + rule_code(r),
        Ending::Spent => SPENT,
    }
}

// The code of an answer, whatever view stands beside it.
pub fn outcome_code(said: Result<Ending, Refusal>) -> u8
    ensures { ((v : View) → result ≡ event_code (told (answer said) v) (rule_in (answer said))) }
{
    match said {
        Err(k) => k.number(),
        Ok(e) => ending_code(e),
    }
}

// The code of an event's answer.
pub fn event_code(r: Reply) -> u8
    ensures { result ≡ event_code (told_by r) (rule_in (answer_of r)) }
{
    outcome_code(r.map(|e| e.ending))
}

// The length of an accepted call goes to `length`; a refused one leaves it.
pub fn lend_length(said: Result<usize, Refusal>, length: &mut usize)
    ensures { length.new ≡ lent (λ k. k) (answer said) length.old }
{
    if let Ok(k) = said {
        *length = k;
    }
}

// Writes the view of a scan that ended.
pub fn show(r: Reply, out: &mut [u8; VIEW])
    ensures { out.new ≡ event_view (told_by r) out.old }
{
    if let Ok(e) = r {
        show_view(e.ending, e.view, out);
    }
}

// Where a message of an output goes.
pub fn route_of(m: Message) -> u8
    ensures { result ≡ route_of m }
{
    if is_answer(m) { TO_SENDER } else { TO_ALL }
}

// Its kind, request number, writer and tag, 0 where the kind has none.
pub fn message_numbers(m: Message) -> [u64; 4]
    ensures { result ≡ numbers m }
{
    match m {
        Message::Read { request } => [1, request, 0, 0],
        Message::ReadAnswer { request, tag } => [2, request, 0, tag],
        Message::Write { request, tag } => [3, request, 0, tag],
        Message::WriteAnswer { request, tag } => [4, request, 0, tag],
        Message::Echo { tag } => [5, 0, 0, tag],
        Message::Value { tag, writer, .. } => [6, 0, writer as u64, tag],
        Message::Good { tag } => [7, 0, 0, tag],
    }
}

// The bytes of its report, zeros where the kind has none.
pub fn message_report(m: Message) -> [u8; REPORT]
    ensures { result ≡ report_in m }
{
    match m {
        Message::Value { report, .. } => view::report_bytes(report),
        _ => [0; REPORT],
    }
}

// The message of a kind's number, which C gives, and which may be any: so the kinds are numbers here.
pub fn message_of(kind: u64, request: u64, writer: usize, tag: u64, report: Report) -> Message
    ensures { result ≡ message_of kind request writer tag report }
{
    match kind {
        1 => Message::Read { request },
        2 => Message::ReadAnswer { request, tag },
        3 => Message::Write { request, tag },
        4 => Message::WriteAnswer { request, tag },
        5 => Message::Echo { tag },
        6 => Message::Value {
            tag,
            writer,
            report,
        },
        7 => Message::Good { tag },
        _ => Message::Read { request: 0 },
    }
}
