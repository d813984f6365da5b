// Whether a quorum agrees on the reports held for the open round, counted in the record's bytes.
ghost use Rattle.std.specs.Prelude.{◌≡◌, ◌≤◌, leb, length};
ghost use Rattle.octets.specs.Word.{words};
ghost use Rattle.view.specs.Size.{nodes};
ghost use Rattle.table.specs.Loop.{all};
ghost use Rattle.table.specs.Table.{tag_of, heard_of, cells};
ghost use Rattle.table.specs.Quorum.{agreeing};
ghost use Rattle.step.specs.Move.{agreement};
ghost use Rattle.region.specs.Record.{record_size, record_of, heard_place, view_in, atround_in};

use octets::get_word;
use react_bytes::tables::{heard_in, tag_in};
use region::places::{ATROUND_IN, OWN_PLACE};
use table::quorum::is_quorum;

// Whether sender s has sent, for each writer, the report held for the open round or a later one.
fn has_sent(r: &[u8], n: usize, s: usize) -> bool
    requires { (length r.now ≡ record_size) × (n ≤ nodes) × (1 ≤ s) × (s ≤ nodes) }
    ensures { result ≡ all n (λ w. leb (tag_of (view_in r.now atround_in) w)
        (heard_of (words cells r.now heard_place) s w)) }
{
    let mut ok = true;
    for w in 0..n {
        ok &= tag_in(r, ATROUND_IN, w + 1) <= heard_in(r, s, w + 1);
    }
    ok
}

// How many nodes agree on the reports held for the open round; the own node does.
fn agreeing_in(r: &[u8], n: usize, own: usize) -> usize
    requires { (length r.now ≡ record_size) × (n ≤ nodes) }
    ensures { result
        ≡ agreeing n own (words cells r.now heard_place) (view_in r.now atround_in).tags }
{
    (1..=n).filter(|&s| s == own || has_sent(r, n, s)).count()
}

// Whether a quorum does.
pub fn agrees_in(r: &[u8], n: usize, f: usize) -> bool
    requires { (length r.now ≡ record_size) × ((record_of r.now).n ≡ n) × (n ≤ nodes) }
    ensures { result ≡ agreement f (record_of r.now) }
{
    is_quorum(n, f, agreeing_in(r, n, get_word(r, OWN_PLACE) as usize))
}
