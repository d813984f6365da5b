// The desk's page of document 02: a view as text in a lent buffer, a line for each node and a last one with the house
// figures. `specs/Page` draws it.
#![tactic(auto)]

ghost use Rattle.std.specs.Prelude.{◌≡◌, ◌++◌, ◌+◌, ◌-◌, ◌*◌, ◌^◌, ◌<◌, ◌≤◌, length, All};
ghost use Rattle.octets.specs.Bytes.{put};
ghost use Rattle.view.specs.Size.{nodes, view_size};
ghost use Rattle.digits.specs.Decimal.{decimal};
ghost use Rattle.refusal.specs.Refusal.{answer};
ghost use Rattle.figures.specs.Figures.{counted_report, totals};
ghost use Rattle.page.specs.Page.{label_width, count_width, cell_size, line_size, right, dash};
ghost use Rattle.page.specs.Page.{cell_text, feed, node_line, figures_line, shown_at, node_lines};
ghost use Rattle.page.specs.Page.{page_in, page_length, page_left, cells, column_of};

use figures::Totals;
use octets::put_bytes;
use refusal::Refusal;
use view::{ENTRY, LIMIT, NODES, Report, TAG};

// The columns of a node's number, the bytes of a count, which is a space and seven columns, how many counts there are,
// and the bytes of a line, which ends in a line feed.
const LABEL: usize = 2;

const CELL: usize = 8;

const COUNTS: usize = 4;

pub const LINE: usize = LABEL + COUNTS * CELL + 1;

// A column that has digits after it: `y` is the number in the columns up to this one, and 0 is shown as a space.
fn column(y: u32) -> u8
    ensures { result ≡ column_of y }
{
    if y == 0 { b' ' } else { b'0' + (y % 10) as u8 }
}

// The number of a node right in its columns.
fn label(k: u32) -> [u8; LABEL]
    requires { k < 10 ^ label_width }
    ensures { result ≡ right label_width (decimal k) }
{
    let tens = column(k / 10);
    let ones = b'0' + (k % 10) as u8;
    [tens, ones]
}

// Writes the digits of a number, the last of them before `end`.
fn put_digits(out: &mut [u8], end: usize, x: u32)
    requires { (length (decimal x) ≤ end) × (end ≤ length out.old) }
    ensures { out.new ≡ put out.old (end - length (decimal x)) (decimal x) }
{
    let mut k = end;
    let mut y = x;
    while 10 <= y {
        k -= 1;
        out[k] = b'0' + (y % 10) as u8;
        y /= 10;
    }
    out[k - 1] = b'0' + y as u8;
}

// Writes a count right in its columns, after a space.
fn put_count(out: &mut [u8], at: usize, x: u32)
    requires { (x < 10 ^ count_width) × (at + cell_size ≤ length out.old) }
    ensures { out.new ≡ put out.old at (cell_text (decimal x)) }
{
    put_bytes(out, at, &[b' '; CELL]);
    put_digits(out, at + CELL, x);
}

// Writes a line of counts at a place.
fn put_counts(out: &mut [u8], at: usize, name: &[u8; LABEL], counts: &[u32; COUNTS])
    requires { All (λ x. x < 10 ^ count_width) counts.now × (at + line_size ≤ length out.old) }
    ensures { out.new ≡ put out.old at (name.now ++ cells counts.now ++ feed) }
{
    put_bytes(out, at, name);
    for (j, x) in counts.iter().enumerate() {
        put_count(out, at + LABEL + CELL * j, *x);
    }
    out[at + LINE - 1] = b'\n';
}

// Writes a line of no counts at a place.
fn put_none(out: &mut [u8], at: usize, name: &[u8; LABEL])
    requires { at + line_size ≤ length out.old }
    ensures { out.new ≡ put out.old at (name.now ++ cell_text dash ++ cell_text dash
        ++ cell_text dash ++ cell_text dash ++ feed) }
{
    put_bytes(out, at, name);
    put_bytes(out, at + LABEL, b"       -       -       -       -\n");
}

// Writes the line of node i + 1 where it stands, and answers the report that counts.
fn put_node(out: &mut [u8], v: &[u8], i: usize) -> Report
    requires { (i < nodes) × (view_size (i + 1) ≤ length v.now) × (line_size * (i + 1) ≤ length out.old) }
    ensures { (result ≡ counted_report v.now i) × (out.new
        ≡ put out.old (line_size * i) (node_line (i + 1) (shown_at v.now i))) }
{
    let at = ENTRY * i;
    let name = label((i + 1) as u32);
    if octets::get_word(v, at) == 0 {
        put_none(out, LINE * i, &name);
        return view::none();
    }
    let p = view::read_report(&v[at + TAG..at + ENTRY]);
    let counts = [
        u32::from(p.extensions),
        u32::from(p.lines),
        u32::from(p.waiting),
        u32::from(p.wakeups),
    ];
    put_counts(out, LINE * i, &name, &counts);
    p
}

// Writes the lines of n nodes, and answers the figures.
fn put_nodes(out: &mut [u8], v: &[u8], n: usize) -> Totals
    requires { (n ≤ nodes) × (view_size n ≤ length v.now) × (line_size * n ≤ length out.old) }
    ensures { (result ≡ totals n v.now)
        × (out.new ≡ put out.old 0 (node_lines n v.now)) }
{
    let mut t = figures::no_totals();
    for i in 0..n {
        t = figures::with_report(t, put_node(out, v, i));
    }
    t
}

// Writes the page of a view of n nodes: the lines of the nodes, and the last one.
fn put_page(out: &mut [u8], v: &[u8], n: usize)
    requires { (n ≤ nodes) × (view_size n ≤ length v.now) × (line_size * n + line_size ≤ length out.old) }
    ensures { out.new ≡ put out.old 0
        (node_lines n v.now ++ figures_line (totals n v.now)) }
{
    let t = put_nodes(out, v, n);
    let counts = [t.extensions, t.lines, t.waiting, t.wakeups];
    put_counts(out, LINE * n, b"==", &counts);
}

// The page of a view of n nodes at the front of `out`, and its length; or a refusal of the figures, and last that the
// buffer is shorter than the page. The other bytes stay.
pub fn page(n: usize, v: &[u8], out: &mut [u8]) -> Result<usize, Refusal>
    ensures { (answer result ≡ page_length (page_in n v.now (length out.old)))
        × (out.new ≡ page_left (page_in n v.now (length out.old)) out.old) }
{
    if !figures::is_long(n, v.len()) {
        return Err(Refusal::Length);
    }
    if n < 1 || NODES < n {
        return Err(Refusal::Size);
    }
    if !view::view_ok(n, LIMIT, v) {
        return Err(Refusal::Layout);
    }
    let size = LINE * (n + 1);
    if out.len() < size {
        return Err(Refusal::Page);
    }
    put_page(out, v, n);
    Ok(size)
}
