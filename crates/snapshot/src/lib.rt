// The library's calls for C or Rust to link, on numbers and lent memory. Each is thin over the call that it names and
// meets the same definition, for every input; none has a precondition. `include/snapshot.h` tells a caller of them.
//
// What crosses: a slice as a pointer and a length, an array and a lent number as a pointer, a bool as 0 or 1. An enum
// does not: an answer is a code, a message is four numbers (kind, request number, writer, tag) and its report beside
// them, a report is its own bytes of the wire, and an event is cut where `cut` says so.
//
// What the caller owes, since nothing here can test it: that a pointer and its length are those of memory, and that two
// regions lent at once do not overlap. The contracts speak of every byte that is lent.
//
//   code           after an event               after another call
//   0              no operation has ended       what was lent holds the result
//   1 to 12        document 01's refusal        document 01's refusal
//   13             an update is spent
//   14             the refusal of a frame
//   15                                          the refusal of a page
//   100 to 103     an update is done
//   110 to 113     a scan has ended
//
// The last digit of 100 to 113 is the rule: 0 for a view borrowed from a good message, or the round, 1 to 3. Refusals
// that come later stay below 100. A refusal leaves all that is lent as it was.
#![tactic(auto)]

ghost use Rattle.std.specs.Prelude.{◌≡◌, ℕ, List};
ghost use Rattle.view.specs.Report.{report_of};
ghost use Rattle.wire.specs.Codec.{front, decode};
ghost use Rattle.figures.specs.Figures.{figures_of};
ghost use Rattle.table.specs.Quorum.{most_faults};
ghost use Rattle.record.specs.declared.Operation.TheVariants.{Update, Scan};
ghost use Rattle.region.specs.Record.{record_size};
ghost use Rattle.layout.specs.Layout.{size_for};
ghost use Rattle.events.specs.Event.{begin, deliver, fresh};
ghost use Rattle.events.specs.Outcome.{told_of};
ghost use Rattle.events.specs.Stop.{stop};
ghost use Rattle.calls_bytes.specs.Entry.{LentResult, fresh as fresh_node, begin as begin_node};
ghost use Rattle.calls_bytes.specs.Entry.{message as message_node};
ghost use Rattle.calls_bytes.specs.Frame.{frame as frame_node};
ghost use Rattle.node_bytes.specs.Called.{Tells};
ghost use Rattle.calls_bytes.specs.Shown.{event_view};
ghost use Rattle.codes.specs.Code.{extent_of, Leaves};
ghost use Rattle.codes.specs.Code.{numbers as numbers_of, report_in, message_in, four_figures};
ghost use Rattle.codes.specs.Code.{answer_code, lent, Wrote, WrotePage, lent_code, LeavesNode, route_of};

use codes::{
    event_code, extent_of, lend_length, message_numbers, message_of, message_report, outcome_code,
    route_of, show,
};
use node_bytes::Called;
use record::Operation;
use refusal::Refusal;
use table::quorum::most_faults;
use view::{REPORT, VIEW, read_report};

// The largest f that a cluster of n nodes can have, as document 01's rule gives it.
#[unsafe(no_mangle)]
pub extern "C" fn snapshot_most_faults(n: usize) -> usize
    ensures { result ≡ most_faults n }
{
    most_faults(n)
}

// ---- a cluster in one buffer

// The bytes to lend for a cluster of n nodes; 0 where there may be none.
#[unsafe(no_mangle)]
pub extern "C" fn snapshot_size(n: usize) -> usize
    ensures { result ≡ size_for n }
{
    layout::size(n)
}

// Makes the lent bytes a fresh cluster of n nodes, f of which may stop.
#[unsafe(no_mangle)]
pub extern "C" fn snapshot_fresh(n: usize, f: usize, cluster: &mut [u8]) -> u8
    ensures { Leaves result cluster.new (fresh n f cluster.old) }
{
    event_code(cluster::fresh(n, f, cluster))
}

// Begins an update with this report at a node; in a cut only so many of its first entries go out.
#[unsafe(no_mangle)]
pub extern "C" fn snapshot_begin_update(
    cluster: &mut [u8],
    node: usize,
    report: &[u8; REPORT],
    cut: bool,
    entries: usize,
) -> u8
    ensures { Leaves result cluster.new (begin node (Update (report_of report.now))
        (extent_of cut entries) cluster.old) }
{
    event_code(cluster::begin(
        cluster,
        node,
        Operation::Update(read_report(report)),
        extent_of(cut, entries),
    ))
}

// Begins a scan at a node.
#[unsafe(no_mangle)]
pub extern "C" fn snapshot_begin_scan(
    cluster: &mut [u8],
    node: usize,
    cut: bool,
    entries: usize,
) -> u8
    ensures { Leaves result cluster.new (begin node Scan (extent_of cut entries) cluster.old) }
{
    event_code(cluster::begin(cluster, node, Operation::Scan, extent_of(cut, entries)))
}

// Delivers what has waited longest on the channel between two nodes. The view of a scan that ends goes to `view`: n
// entries, then zeros.
#[unsafe(no_mangle)]
pub extern "C" fn snapshot_deliver(
    cluster: &mut [u8],
    from: usize,
    to: usize,
    cut: bool,
    entries: usize,
    view: &mut [u8; VIEW],
) -> u8
    ensures { Leaves result cluster.new (deliver from to (extent_of cut entries) cluster.old)
        × (view.new ≡ event_view (told_of (deliver from to (extent_of cut entries) cluster.old))
        view.old) }
{
    let r = cluster::deliver(cluster, from, to, extent_of(cut, entries));
    show(r, view);
    event_code(r)
}

// Stops a node.
#[unsafe(no_mangle)]
pub extern "C" fn snapshot_stop(cluster: &mut [u8], node: usize) -> u8
    ensures { Leaves result cluster.new (stop node cluster.old) }
{
    event_code(cluster::stop(cluster, node))
}

// ---- one node on its record in lent bytes, `state`

// The bytes of a node's record.
#[unsafe(no_mangle)]
pub extern "C" fn snapshot_node_size() -> usize
    ensures { result ≡ record_size }
{
    node_bytes::size()
}

// Makes the lent bytes the fresh record of node `own` of n, f of which may stop.
#[unsafe(no_mangle)]
pub extern "C" fn snapshot_node_fresh(n: usize, f: usize, own: usize, state: &mut [u8]) -> u8
    ensures { (result ≡ lent_code (fresh_node n f own state.old))
        × (state.new ≡ (fresh_node n f own state.old).bytes) }
{
    let a = node_bytes::fresh(n, f, own, state);
    outcome_code(a.map(|c| c.ending))
}

// The code of a call at a node. One that was accepted tells the length of its messages.
fn node_code(a: Result<Called, Refusal>, length: &mut usize) -> u8
    ensures { (state out : List ℕ) (e : LentResult) → Tells a state out e
        → LeavesNode result state out length.new e length.old }
{
    lend_length(a.map(|c| c.length), length);
    outcome_code(a.map(|c| c.ending))
}

// Begins an update with this report; the messages to send go to the front of `out`, and their length to `length`.
#[unsafe(no_mangle)]
pub extern "C" fn snapshot_node_begin_update(
    state: &mut [u8],
    report: &[u8; REPORT],
    out: &mut [u8],
    length: &mut usize,
) -> u8
    ensures { LeavesNode result state.new out.new length.new
        (begin_node state.old (Update (report_of report.now)) out.old)
        length.old }
{
    let a = node_bytes::begin(state, Operation::Update(read_report(report)), out);
    node_code(a, length)
}

// Begins a scan.
#[unsafe(no_mangle)]
pub extern "C" fn snapshot_node_begin_scan(
    state: &mut [u8],
    out: &mut [u8],
    length: &mut usize,
) -> u8
    ensures { LeavesNode result state.new out.new length.new
        (begin_node state.old Scan out.old) length.old }
{
    let a = node_bytes::begin(state, Operation::Scan, out);
    node_code(a, length)
}

// Handles one message from node `sender`. The view of a scan that ends goes to `view`: n entries, then zeros.
#[unsafe(no_mangle)]
pub extern "C" fn snapshot_node_message(
    state: &mut [u8],
    sender: usize,
    bytes: &[u8],
    out: &mut [u8],
    length: &mut usize,
    view: &mut [u8; VIEW],
) -> u8
    ensures { LeavesNode result state.new out.new length.new
        (message_node state.old sender bytes.now out.old) length.old
        × (view.new ≡ event_view
        (message_node state.old sender bytes.now out.old).answer
        view.old) }
{
    let a = node_bytes::message(state, sender, bytes, out, view);
    node_code(a, length)
}

// Handles a frame from node `sender`: whole messages, one after the other, as if each were given to the call above in
// turn.
#[unsafe(no_mangle)]
pub extern "C" fn snapshot_node_frame(
    state: &mut [u8],
    sender: usize,
    frame: &[u8],
    out: &mut [u8],
    length: &mut usize,
    view: &mut [u8; VIEW],
) -> u8
    ensures { LeavesNode result state.new out.new length.new
        (frame_node state.old sender frame.now out.old) length.old
        × (view.new ≡ event_view
        (frame_node state.old sender frame.now out.old).answer
        view.old) }
{
    let a = frame_bytes::frame(state, sender, frame, out, view);
    node_code(a, length)
}

// The message at the front of `bytes`: its length goes to `length`, and where it goes to `route`.
#[unsafe(no_mangle)]
pub extern "C" fn snapshot_next(n: usize, bytes: &[u8], length: &mut usize, route: &mut u8) -> u8
    ensures { (result ≡ answer_code (front n bytes.now))
        × (length.new ≡ lent (λ p. p.1) (front n bytes.now) length.old)
        × (route.new ≡ lent (λ p. route_of p.0) (front n bytes.now) route.old) }
{
    match wire_parse::parse_prefix(n, bytes) {
        Ok((m, k)) => {
            *length = k;
            *route = route_of(m);
            0
        }
        Err(k) => k.number(),
    }
}

// ---- messages and figures

// Reads one message: its numbers go to `numbers`, 0 where the kind has none, its report to `report`, zeros where it has
// none. The view of a good one is the bytes from 18 on.
#[unsafe(no_mangle)]
pub extern "C" fn snapshot_read(
    n: usize,
    bytes: &[u8],
    numbers: &mut [u64; 4],
    report: &mut [u8; REPORT],
) -> u8
    ensures { (result ≡ answer_code (decode n bytes.now))
        × (numbers.new ≡ lent numbers_of (decode n bytes.now) numbers.old)
        × (report.new ≡ lent report_in (decode n bytes.now) report.old) }
{
    match wire_parse::parse(n, bytes) {
        Ok(m) => {
            *numbers = message_numbers(m);
            *report = message_report(m);
            0
        }
        Err(k) => k.number(),
    }
}

// Writes the message of these numbers at the front of `out`, and its length to `length`. The report is looked at only
// for a value, the view only for a good one, and of the numbers those that the kind has.
#[unsafe(no_mangle)]
pub extern "C" fn snapshot_write(
    n: usize,
    numbers: &[u64; 4],
    report: &[u8; REPORT],
    view: &[u8],
    out: &mut [u8],
    length: &mut usize,
) -> u8
    ensures { Wrote result length.new out.new n
        (message_in numbers.now report.now)
        view.now length.old out.old }
{
    let [kind, request, writer, tag] = *numbers;
    let m = message_of(kind, request, writer as usize, tag, read_report(report));
    match wire_write::write(n, m, view, out) {
        Ok(k) => {
            *length = k;
            0
        }
        Err(k) => k.number(),
    }
}

// Where calls waiting stand among the figures.
const WAITING: usize = 2;

// The house figures over a view of n nodes.
#[unsafe(no_mangle)]
pub extern "C" fn snapshot_figures(n: usize, view: &[u8], figures: &mut [u32; 4]) -> u8
    ensures { (result ≡ answer_code (figures_of n view.now))
        × (figures.new ≡ lent four_figures (figures_of n view.now) figures.old) }
{
    match figures::figures(n, view) {
        // Four sums are stored at once, and the largest over its sum where it is another number.
        Ok(c) => {
            let t = c.totals;
            *figures = [t.extensions, t.lines, c.waiting_sum, t.wakeups];
            if t.waiting != c.waiting_sum {
                figures[WAITING] = t.waiting;
            }
            0
        }
        Err(k) => k.number(),
    }
}

// Writes the desk's page of a view of n nodes at the front of `out`, and its length to `length`.
#[unsafe(no_mangle)]
pub extern "C" fn snapshot_page(n: usize, view: &[u8], out: &mut [u8], length: &mut usize) -> u8
    ensures { WrotePage result length.new out.new n view.now length.old
        out.old }
{
    match page::page(n, view, out) {
        Ok(k) => {
            *length = k;
            0
        }
        Err(k) => k.number(),
    }
}
