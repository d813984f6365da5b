// The head of a record in its bytes: its numbers, its wait, and the codes that stand for the wait.
ghost use Rattle.std.specs.Prelude.{◌≡◌, length};
ghost use Rattle.octets.specs.Bytes.{put};
ghost use Rattle.region.specs.Record.{record_size, n_place, code_place};
ghost use Rattle.region.specs.Record.{kind_code, kind_of, operation_of, wait_of, wait_in};
ghost use Rattle.region.specs.Record.{wait_words, wait_report, wait_bytes};
ghost use Rattle.region.specs.Record.{head_of, head_bytes};
ghost use Rattle.region.specs.Record.{codes_known};

use crate::places::{
    ANSWERED_PLACE, CODE_PLACE, F_PLACE, HEARD_PLACE, KEPT_PLACE, KIND_PLACE, LARGEST_PLACE,
    MAXTAG_PLACE, N_PLACE, OWN_PLACE, REPORT_PLACE, REQUEST_PLACE, ROUND_PLACE, TAG_PLACE,
};
use octets::get_word;
use record::{Kind, Operation, Wait};
use view::Report;

// The numbers and the wait of a record: what stands before its tables.
#[derive(Clone, Copy)]
pub struct Head {
    pub n: u64,
    pub f: u64,
    pub own: u64,
    pub maxtag: u64,
    pub request: u64,
    pub kept: u64,
    pub wait: Wait,
}

fn kind_of(code: u64) -> Kind
    ensures { result ≡ kind_of code }
{
    if code == 0 { Kind::Scan } else { Kind::Update }
}

fn operation_of(code: u64, report: Report) -> Operation
    ensures { result ≡ operation_of code report }
{
    if code == 0 {
        Operation::Scan
    } else {
        Operation::Update(report)
    }
}

// The wait that these words and this report are.
fn wait_of(
    code: u64,
    kind: u64,
    round: u64,
    tag: u64,
    answered: u64,
    largest: u64,
    report: Report,
) -> Wait
    ensures { result ≡ wait_of code kind round tag answered largest report }
{
    match code {
        1 => Wait::Reading {
            operation: operation_of(kind, report),
            answered,
            largest,
        },
        2 => Wait::Writing {
            kind: kind_of(kind),
            round,
            tag,
            answered,
        },
        3 => Wait::Comparing {
            kind: kind_of(kind),
            round,
            tag,
        },
        4 => Wait::Borrowing {
            kind: kind_of(kind),
            tag,
        },
        _ => Wait::Idle,
    }
}

// The wait of the record.
#[tactic(auto, unfolding(octets::specs::Bytes::part))]
pub fn load_wait(b: &[u8]) -> Wait
    requires { length b.now ≡ record_size }
    ensures { result ≡ wait_in b.now }
{
    wait_of(
        get_word(b, CODE_PLACE),
        get_word(b, KIND_PLACE),
        get_word(b, ROUND_PLACE),
        get_word(b, TAG_PLACE),
        get_word(b, ANSWERED_PLACE),
        get_word(b, LARGEST_PLACE),
        view::read_report(&b[REPORT_PLACE..HEARD_PLACE]),
    )
}

// The head of the record.
pub fn head_of(b: &[u8]) -> Head
    requires { length b.now ≡ record_size }
    ensures { result ≡ head_of b.now }
{
    Head {
        n: get_word(b, N_PLACE),
        f: get_word(b, F_PLACE),
        own: get_word(b, OWN_PLACE),
        maxtag: get_word(b, MAXTAG_PLACE),
        request: get_word(b, REQUEST_PLACE),
        kept: get_word(b, KEPT_PLACE),
        wait: load_wait(b),
    }
}

// Whether the codes of the wait and of its kind are known; an idle wait has no kind.
pub fn codes_known(b: &[u8]) -> bool
    requires { length b.now ≡ record_size }
    ensures { result ≡ codes_known b.now }
{
    let code = get_word(b, CODE_PLACE);
    code == 0 || (code <= 4 && get_word(b, KIND_PLACE) <= 1)
}

// The words of a wait.
fn wait_words(w: Wait) -> [u64; 6]
    ensures { result ≡ wait_words w }
{
    match w {
        Wait::Idle => [0, 0, 0, 0, 0, 0],
        Wait::Reading {
            operation: Operation::Update(_),
            answered,
            largest,
        } => [1, 1, 0, 0, answered, largest],
        Wait::Reading {
            operation: Operation::Scan,
            answered,
            largest,
        } => [1, 0, 0, 0, answered, largest],
        Wait::Writing {
            kind,
            round,
            tag,
            answered,
        } => [2, kind_code(kind), round, tag, answered, 0],
        Wait::Comparing { kind, round, tag } => [3, kind_code(kind), round, tag, 0, 0],
        Wait::Borrowing { kind, tag } => [4, kind_code(kind), 0, tag, 0, 0],
    }
}

fn kind_code(k: Kind) -> u64
    ensures { result ≡ kind_code k }
{
    match k {
        Kind::Update => 1,
        Kind::Scan => 0,
    }
}

// The report of an update that reads.
fn wait_report(w: Wait) -> Report
    ensures { result ≡ wait_report w }
{
    match w {
        Wait::Reading {
            operation: Operation::Update(report),
            ..
        } => report,
        _ => view::none(),
    }
}

// Writes the wait of the record.
pub fn save_wait(b: &mut [u8], w: Wait)
    requires { length b.old ≡ record_size }
    ensures { b.new ≡ put b.old code_place (wait_bytes w) }
{
    octets::put_words(b, CODE_PLACE, &wait_words(w));
    octets::put_bytes(b, REPORT_PLACE, &view::report_bytes(wait_report(w)));
}

// Writes the head of the record.
pub fn save_head(b: &mut [u8], h: Head)
    requires { length b.old ≡ record_size }
    ensures { b.new ≡ put b.old n_place (head_bytes h) }
{
    let numbers = [h.n, h.f, h.own, h.maxtag, h.request, h.kept];
    octets::put_words(b, N_PLACE, &numbers);
    save_wait(b, h.wait);
}
