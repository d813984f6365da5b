// A node's record judged in its bytes, without a copy of them: every event judges every record (refusal 2).
ghost use Rattle.std.specs.Prelude.{◌≡◌, true, ◌+◌, ◌<◌, ◌≤◌, length};
ghost use Rattle.octets.specs.Loop.{all_to};
ghost use Rattle.octets.specs.Test.{both};
ghost use Rattle.octets.specs.Word.{words};
ghost use Rattle.view.specs.Size.{limit};
ghost use Rattle.table.specs.Table.{view_within, heard_within, cells};
ghost use Rattle.record.specs.Usable.{sizes_within};
ghost use Rattle.region.specs.Record.{record_size, heard_place, view_in, last_in, atmax_in, atround_in, kept_in, views};
ghost use Rattle.block.specs.Block.{record_sound};
ghost use Rattle.block.specs.Judge.{group, cell_within, stated};

use octets::{WORD, get_word};
use record::usable::{numbers_within, round_tag};
use region::head::{codes_known, load_wait};
use region::places::{
    ATMAX_IN, ATROUND_IN, F_PLACE, HEARD_PLACE, KEPT_IN, KEPT_PLACE, LAST_IN, MAXTAG_PLACE,
    N_PLACE, OWN_PLACE, REQUEST_PLACE, VIEWS_PLACE,
};
use table::CELLS;
use view::{LIMIT, NODES, VIEW, view_ok};

// The cells that are judged at a time: as many as make one test of the machine.
const GROUP: usize = 8;

const GROUPS: usize = CELLS / GROUP;

// Whether no tag heard is above the limit, 2^63 - 1, in the group of cells from cell k on: the first byte of such a tag
// is below 128.
fn group_sound(r: &[u8], k: usize) -> bool
    requires { (length r.now ≡ record_size) × (k + group ≤ cells) }
    ensures { result ≡ all_to group (λ j. cell_within r.now (k + j)) }
{
    let mut ok = true;
    for j in 0..GROUP {
        ok &= r[HEARD_PLACE + WORD * (k + j)] < 128;
    }
    ok
}

// Whether no tag heard is above the limit.
fn heard_sound(r: &[u8]) -> bool
    requires { length r.now ≡ record_size }
    ensures { result ≡ heard_within (words cells r.now heard_place) }
{
    for i in 0..GROUPS {
        if !group_sound(r, GROUP * i) {
            return false;
        }
    }
    true
}

// Whether view i has no tag above `top` and no report beside tag 0.
fn view_sound(r: &[u8], i: usize, top: u64) -> bool
    requires { (length r.now ≡ record_size) × (i < views) }
    ensures { result ≡ view_within top (view_in r.now i) }
{
    let at = VIEWS_PLACE + VIEW * i;
    view_ok(NODES, top, &r[at..at + VIEW])
}

// Whether the tables keep their limits: the record's `maxtag` and kept tag, and the tag of the open round.
fn tables_sound(r: &[u8], maxtag: u64, round: u64, kept: u64) -> bool
    requires { length r.now ≡ record_size }
    ensures { result ≡ both
        (both (heard_within (words cells r.now heard_place))
        (view_within limit (view_in r.now last_in)))
        (both (both (view_within maxtag (view_in r.now atmax_in))
        (view_within round (view_in r.now atround_in)))
        (view_within kept (view_in r.now kept_in))) }
{
    heard_sound(r)
        && view_sound(r, LAST_IN, LIMIT)
        && view_sound(r, ATMAX_IN, maxtag)
        && view_sound(r, ATROUND_IN, round)
        && view_sound(r, KEPT_IN, kept)
}

// Whether the record states this n, this f and the number c.
fn is_stated(r: &[u8], n: usize, f: usize, c: usize) -> bool
    requires { length r.now ≡ record_size }
    ensures { result ≡ stated n f c r.now }
{
    get_word(r, N_PLACE) == n as u64
        && get_word(r, F_PLACE) == f as u64
        && get_word(r, OWN_PLACE) == c as u64
}

// Whether these bytes are a usable record of node c of n, f of which may stop. That there may be such a node is judged
// by the caller, in a cluster once for all records.
pub fn record_sound(r: &[u8], n: usize, f: usize, c: usize) -> bool
    requires { (length r.now ≡ record_size) × (sizes_within n f c ≡ true) }
    ensures { result ≡ record_sound n f c r.now }
{
    let maxtag = get_word(r, MAXTAG_PLACE);
    let kept = get_word(r, KEPT_PLACE);
    let wait = load_wait(r);
    is_stated(r, n, f, c)
        && codes_known(r)
        && numbers_within(n, maxtag, get_word(r, REQUEST_PLACE), kept, wait)
        && tables_sound(r, maxtag, round_tag(wait), kept)
}
