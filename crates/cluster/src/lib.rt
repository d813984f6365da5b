// A cluster (document 01's house) in lent bytes: n nodes and the channels between them. Every event judges everything
// first and writes last, so that a refusal leaves every byte as it was.
#![tactic(auto)]

mod handing;
mod here;

ghost use Rattle.std.specs.Prelude.{◌≡◌, ◌+◌, ◌≤◌, length, IfOk};
ghost use Rattle.octets.specs.Loop.{up_to};
ghost use Rattle.view.specs.Size.{nodes};
ghost use Rattle.record.specs.Record.{blank};
ghost use Rattle.block.specs.Block.{keep_record};
ghost use Rattle.layout.specs.Layout.{cluster_size, stated, on_block};
ghost use Rattle.events.specs.Event.{admission as admission_of, open_in};
ghost use Rattle.events.specs.Event.{fresh as fresh_event, begin as begin_event, deliver as deliver_event};
ghost use Rattle.events.specs.Stop.{stop as stop_event};
ghost use Rattle.events.specs.Outcome.{Tells, fault};
ghost use Rattle.events.specs.Ready.{Ready};

use block::BLOCK;
use events::given;
pub use events::{Ended, Reply};
use handing::hand_over;
use here::{ask_at, asked_at, is_full_at, is_open_at};
use layout::{
    BLOCKS_PLACE, FAULTS_PLACE, STATED_PLACE, first_at, halt_at, is_fit, is_node, is_sound,
    keep_at, stopped_at, waiting_at,
};
use outgoing::{Extent, is_cut};
use record::{Operation, blank_node};
pub use refusal::Refusal;
use release::{can_send, may_cut, release_handled};
use step::Ending;
use table::quorum::can_be;
use wire_parse::parse_prefix;

// A fresh record in every block.
fn blank_blocks(b: &mut [u8], n: usize, f: usize)
    requires { (n ≤ nodes) × (length b.old ≡ cluster_size n) }
    ensures { b.new ≡ up_to n (λ i. on_block (i + 1) (keep_record (blank n f (i + 1)))) b.old }
{
    for i in 0..n {
        keep_at(b, i + 1, blank_node(n, f, i + 1));
    }
}

// Makes the lent bytes a fresh cluster of n nodes, f of which may stop, or refuses with 1, 12.
pub fn fresh(n: usize, f: usize, b: &mut [u8]) -> Reply
    ensures { Tells result b.new (fresh_event n f b.old) }
{
    if !can_be(n, f) {
        return Err(Refusal::Size);
    }
    if b.len() != BLOCKS_PLACE + BLOCK * n {
        return Err(Refusal::Length);
    }
    b.fill(0);
    b[STATED_PLACE] = n as u8;
    b[FAULTS_PLACE] = f as u8;
    blank_blocks(b, n, f);
    given(false, Ending::None, view::absent())
}

// Opens an operation at node c, or refuses with 5, 6, 10, 11. What it sends is known before the step is done, so there
// is no need of a copy of the record. It forwards nothing, so that the place 0 is never read.
fn open_at(b: &mut [u8], n: usize, c: usize, o: Operation, x: Extent) -> Reply
    requires { Ready n c c b.old }
    ensures { Tells result b.new (open_in n c o x b.old) }
{
    if is_open_at(b, c) {
        return Err(Refusal::Open);
    }
    if is_full_at(b, c) {
        return Err(Refusal::Requests);
    }
    if !may_cut(b, n, is_cut(x)) {
        return Err(Refusal::Stops);
    }
    let sent = asked_at(b, c);
    if !can_send(b, n, c, sent, x) {
        return Err(Refusal::Full);
    }
    ask_at(b, c, o);
    release_handled(b, n, c, c, sent, 0, x);
    given(false, Ending::None, view::absent())
}

// The number of nodes, or the first of 12, 2, 3, 4 that refuses an event of node c, with a message from a.
fn admission(b: &[u8], a: usize, c: usize) -> Result<usize, Refusal>
    ensures refused { fault result ≡ admission_of a c b.now }
    ensures counted { IfOk result (λ n. n ≡ stated b.now) }
{
    if !is_fit(b) {
        return Err(Refusal::Length);
    }
    if !is_sound(b) {
        return Err(Refusal::Unusable);
    }
    let n = usize::from(b[STATED_PLACE]);
    if !(is_node(n, a) && is_node(n, c)) {
        return Err(Refusal::Node);
    }
    if stopped_at(b, c) {
        return Err(Refusal::Stopped);
    }
    Ok(n)
}

// Begins an operation at node c, or refuses with 12, 2, 3, 4, 5, 6, 10, 11.
pub fn begin(b: &mut [u8], c: usize, o: Operation, x: Extent) -> Reply
    ensures { Tells result b.new (begin_event c o x b.old) }
{
    let n = admission(b, c, c)?;
    open_at(b, n, c, o, x)
}

// Delivers what has waited longest on the channel from a to c, or refuses with 12, 2, 3, 4, 8, 7, 9, 10, 11.
pub fn deliver(b: &mut [u8], a: usize, c: usize, x: Extent) -> Reply
    ensures { Tells result b.new (deliver_event a c x b.old) }
{
    let n = admission(b, a, c)?;
    if waiting_at(b, a, c) == 0 {
        return Err(Refusal::Empty);
    }
    match parse_prefix(n, first_at(b, a, c)) {
        Err(_) => Err(Refusal::Layout),
        Ok((m, _)) => hand_over(b, n, a, c, m, x),
    }
}

// Stops node c, or refuses with 12, 2, 3, 4, 10.
pub fn stop(b: &mut [u8], c: usize) -> Reply
    ensures { Tells result b.new (stop_event c b.old) }
{
    let n = admission(b, c, c)?;
    if !may_cut(b, n, true) {
        return Err(Refusal::Stops);
    }
    halt_at(b, n, c);
    given(false, Ending::None, view::absent())
}
