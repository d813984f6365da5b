// A cluster's bytes: where the blocks of its nodes stand, what they say, and the changes of one of them.
#![tactic(auto)]

pub mod forward;

ghost use Rattle.std.specs.Prelude.{◌≡◌, true, ◌<◌, ◌≤◌, ◌^◌, length};
ghost use Rattle.view.specs.Size.{nodes};
ghost use Rattle.table.specs.Loop.{all, count};
ghost use Rattle.table.specs.Quorum.{can_be};
ghost use Rattle.region.specs.Channel.{slot_size, count_of, first};
ghost use Rattle.region.specs.Record.{record_size, record_of, record_bytes};
ghost use Rattle.block.specs.Block.{block_size, record_in, keep_record, take_off, receive, halt, block_sound};
ghost use Rattle.layout.specs.Layout.{cluster_size, blocks_place, block_place, size_for, faults_in, block};
ghost use Rattle.layout.specs.Layout.{stopped, channel, on_block, fits, sound, is_node};

use block::BLOCK;
use record::Node;
use table::quorum::tolerates;
use view::NODES;

// Where n and f are stated, and where the blocks stand.
pub const STATED_PLACE: usize = 0;

pub const FAULTS_PLACE: usize = STATED_PLACE + 1;

pub const BLOCKS_PLACE: usize = FAULTS_PLACE + 1;

// The bytes to lend for a cluster of n nodes; 0 where there may be none.
#[tactic(auto, unfolding(crate::specs::Layout::size_for))]
pub fn size(n: usize) -> usize
    ensures { result ≡ size_for n }
{
    if 1 <= n && n <= NODES {
        BLOCKS_PLACE + BLOCK * n
    } else {
        0
    }
}

// f: the most nodes that may stop.
pub fn faults_in(b: &[u8]) -> usize
    requires { blocks_place ≤ length b.now }
    ensures { result ≡ faults_in b.now }
{
    usize::from(b[FAULTS_PLACE])
}

// Whether c is a node's number.
pub fn is_node(n: usize, c: usize) -> bool
    ensures { result ≡ is_node n c }
{
    1 <= c && c <= n
}

// Where the block of node c stands.
fn block_place(c: usize) -> usize
    requires { (1 ≤ c) × (cluster_size c < 2 ^ 64) }
    ensures { result ≡ block_place c }
{
    BLOCKS_PLACE + BLOCK * (c - 1)
}

// The block of node c.
fn block_of(b: &[u8], c: usize) -> &[u8]
    requires { (1 ≤ c) × (cluster_size c ≤ length b.now) }
    ensures { (result.now ≡ block b.now c) × (length result.now ≡ block_size) }
{
    let at = block_place(c);
    &b[at..at + BLOCK]
}

// Whether node c has stopped.
pub fn stopped_at(b: &[u8], c: usize) -> bool
    requires { (1 ≤ c) × (cluster_size c ≤ length b.now) }
    ensures { result ≡ stopped b.now c }
{
    block::has_stopped(block_of(b, c))
}

// How many messages wait on the channel from a to c.
pub fn waiting_at(b: &[u8], a: usize, c: usize) -> usize
    requires { (1 ≤ a) × (a ≤ nodes) × (1 ≤ c) × (cluster_size c ≤ length b.now) }
    ensures { (result ≡ count_of (channel b.now a c)) × (result ≤ 255) }
{
    block::waiting_in(block_of(b, c), a)
}

// The slot of the message that has waited longest on the channel from a to c.
pub fn first_at(b: &[u8], a: usize, c: usize) -> &[u8]
    requires { (1 ≤ a) × (a ≤ nodes) × (1 ≤ c) × (cluster_size c ≤ length b.now) }
    ensures { result.now ≡ first (channel b.now a c) }
{
    block::first_in(block_of(b, c), a)
}

// Node c receives a message from a, unless it has stopped.
pub fn receive_at(b: &mut [u8], a: usize, c: usize, m: &[u8])
    requires { (1 ≤ a) × (a ≤ nodes) × (1 ≤ c) × (cluster_size c ≤ length b.old) × (length m.now ≤ slot_size) }
    ensures { b.new ≡ on_block c (receive a m.now) b.old }
{
    let at = block_place(c);
    block::receive_from(&mut b[at..at + BLOCK], a, m);
}

// Takes the oldest message off the channel from a to c.
pub fn take_off_at(b: &mut [u8], a: usize, c: usize)
    requires { (1 ≤ a) × (a ≤ nodes) × (1 ≤ c) × (cluster_size c ≤ length b.old) }
    ensures { b.new ≡ on_block c (take_off a) b.old }
{
    let at = block_place(c);
    block::take_off(&mut b[at..at + BLOCK], a);
}

// Writes another record of node c.
pub fn keep_at(b: &mut [u8], c: usize, d: Node)
    requires { (1 ≤ c) × (cluster_size c ≤ length b.old) }
    ensures { b.new ≡ on_block c (keep_record d) b.old }
{
    let at = block_place(c);
    block::keep_node(&mut b[at..at + BLOCK], d);
}

// Copies the record of node c.
pub fn copy_record_at(b: &[u8], c: usize, r: &mut [u8])
    requires { (1 ≤ c) × (cluster_size c ≤ length b.now) × (length r.old ≡ record_size) }
    ensures { r.new ≡ record_in (block b.now c) }
{
    block::copy_record(block_of(b, c), r);
}

// Writes another record of node c, given in bytes.
pub fn keep_record_at(b: &mut [u8], c: usize, r: &[u8])
    requires { (1 ≤ c) × (cluster_size c ≤ length b.old) × (length r.now ≡ record_size)
        × (r.now ≡ record_bytes (record_of r.now)) }
    ensures { b.new ≡ on_block c (keep_record (record_of r.now)) b.old }
{
    let at = block_place(c);
    block::keep_record(&mut b[at..at + BLOCK], r);
}

// Stops node c of n.
pub fn halt_at(b: &mut [u8], n: usize, c: usize)
    requires { (n ≤ nodes) × (1 ≤ c) × (cluster_size c ≤ length b.old) }
    ensures { b.new ≡ on_block c (halt n) b.old }
{
    let at = block_place(c);
    block::halt_node(&mut b[at..at + BLOCK], n);
}

// How many of the nodes 1 to n have stopped.
pub fn stopped_nodes(b: &[u8], n: usize) -> usize
    requires { (n ≤ nodes) × (length b.now ≡ cluster_size n) }
    ensures { result ≡ count n (stopped b.now) }
{
    (1..=n).filter(|&c| stopped_at(b, c)).count()
}

// Whether every block is sound.
fn blocks_sound(b: &[u8], n: usize, f: usize) -> bool
    requires { (can_be n f ≡ true) × (length b.now ≡ cluster_size n) }
    ensures { result ≡ all n (λ c. block_sound n f c (block b.now c)) }
{
    let mut ok = true;
    for c in 0..n {
        ok &= block::block_sound(block_of(b, c + 1), n, f, c + 1);
    }
    ok
}

// Whether the length is right, so far as the bytes state an n (refusal 12).
#[tactic(auto, unfolding(crate::specs::Layout::fits))]
pub fn is_fit(b: &[u8]) -> bool
    ensures { result ≡ fits b.now }
{
    if b.is_empty() {
        return false;
    }
    let n = usize::from(b[STATED_PLACE]);
    if 1 <= n && n <= NODES {
        b.len() == BLOCKS_PLACE + BLOCK * n
    } else {
        true
    }
}

// Whether the bytes are a cluster that can be used (refusal 2).
#[tactic(auto, unfolding(crate::specs::Layout::sound))]
pub fn is_sound(b: &[u8]) -> bool
    requires { fits b.now ≡ true }
    ensures { result ≡ sound b.now }
{
    let n = usize::from(b[STATED_PLACE]);
    if 1 <= n && n <= NODES {
        let f = faults_in(b);
        if tolerates(n, f) {
            return blocks_sound(b, n, f) && stopped_nodes(b, n) <= f;
        }
    }
    false
}
