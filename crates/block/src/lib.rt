// One node's block in a cluster's bytes: what it says, and the changes of it.
#![tactic(auto)]

pub mod judge;

ghost use Rattle.std.specs.Prelude.{◌≡◌, true, ◌≤◌, length};
ghost use Rattle.view.specs.Size.{nodes};
ghost use Rattle.record.specs.Usable.{sizes_within};
ghost use Rattle.region.specs.Channel.{channel_size, slot_size, first};
ghost use Rattle.region.specs.Record.{record_size, record_of, record_bytes};
ghost use Rattle.block.specs.Block.{block_size, channel_place, has_stopped, record_in, channel_in, waiting_in};
ghost use Rattle.block.specs.Block.{keep_record, take_off};
ghost use Rattle.block.specs.Block.{receive, halt, channels_sound, block_sound};

use judge::record_sound;
use record::Node;
use region::places::{CAPACITY, CHANNEL, COUNT_PLACE, RECORD};
use view::NODES;

// Where the parts of a block stand, and its bytes.
const STOP_PLACE: usize = 0;

pub const RECORD_PLACE: usize = STOP_PLACE + 1;

pub const CHANNELS_PLACE: usize = RECORD_PLACE + RECORD;

pub const BLOCK: usize = CHANNELS_PLACE + CHANNEL * NODES;

// Whether the node has stopped.
pub fn has_stopped(k: &[u8]) -> bool
    requires { length k.now ≡ block_size }
    ensures { result ≡ has_stopped k.now }
{
    0 < k[STOP_PLACE]
}

// Where the channel from node a stands.
pub fn channel_place(a: usize) -> usize
    requires { (1 ≤ a) × (a ≤ nodes) }
    ensures { result ≡ channel_place a }
{
    CHANNELS_PLACE + CHANNEL * (a - 1)
}

// The channel from node a.
fn channel_in(k: &[u8], a: usize) -> &[u8]
    requires { (length k.now ≡ block_size) × (1 ≤ a) × (a ≤ nodes) }
    ensures { (result.now ≡ channel_in k.now a) × (length result.now ≡ channel_size) }
{
    let at = channel_place(a);
    &k[at..at + CHANNEL]
}

// How many messages wait on the channel from node a.
pub fn waiting_in(k: &[u8], a: usize) -> usize
    requires { (length k.now ≡ block_size) × (1 ≤ a) × (a ≤ nodes) }
    ensures { (result ≡ waiting_in k.now a) × (result ≤ 255) }
{
    usize::from(channel_in(k, a)[COUNT_PLACE])
}

// The slot of the message that has waited longest on the channel from node a.
pub fn first_in(k: &[u8], a: usize) -> &[u8]
    requires { (length k.now ≡ block_size) × (1 ≤ a) × (a ≤ nodes) }
    ensures { result.now ≡ first (channel_in k.now a) }
{
    region::channel::first(channel_in(k, a))
}

// Writes another record.
pub fn keep_node(k: &mut [u8], c: Node)
    requires { length k.old ≡ block_size }
    ensures { k.new ≡ keep_record c k.old }
{
    region::stored::save(&mut k[RECORD_PLACE..CHANNELS_PLACE], c);
}

// Copies the node's record.
#[tactic(auto, unfolding(crate::specs::Block::record_in, octets::specs::Bytes::part, octets::specs::Bytes::put))]
pub fn copy_record(k: &[u8], r: &mut [u8])
    requires { (length k.now ≡ block_size) × (length r.old ≡ record_size) }
    ensures { r.new ≡ record_in k.now }
{
    octets::put_halves(r, 0, &k[RECORD_PLACE..CHANNELS_PLACE]);
}

// Writes another record, given in bytes.
pub fn keep_record(k: &mut [u8], r: &[u8])
    requires { (length k.old ≡ block_size) × (length r.now ≡ record_size)
        × (r.now ≡ record_bytes (record_of r.now)) }
    ensures { k.new ≡ keep_record (record_of r.now) k.old }
{
    octets::put_halves(k, RECORD_PLACE, r);
}

// Takes the oldest message off the channel from node a.
pub fn take_off(k: &mut [u8], a: usize)
    requires { (length k.old ≡ block_size) × (1 ≤ a) × (a ≤ nodes) }
    ensures { k.new ≡ take_off a k.old }
{
    let at = channel_place(a);
    region::channel::pop(&mut k[at..at + CHANNEL]);
}

// Puts a message at the end of the channel from node a, unless the node has stopped.
pub fn receive_from(k: &mut [u8], a: usize, m: &[u8])
    requires { (length k.old ≡ block_size) × (1 ≤ a) × (a ≤ nodes) × (length m.now ≤ slot_size) }
    ensures { k.new ≡ receive a m.now k.old }
{
    if !has_stopped(k) {
        let at = channel_place(a);
        region::channel::push(&mut k[at..at + CHANNEL], m);
    }
}

// Stops the node and empties its channels from 1 to n.
pub fn halt_node(k: &mut [u8], n: usize)
    requires { (length k.old ≡ block_size) × (n ≤ nodes) }
    ensures { k.new ≡ halt n k.old }
{
    k[STOP_PLACE] = 1;
    for i in 0..n {
        let at = channel_place(i + 1);
        region::channel::clear(&mut k[at..at + CHANNEL]);
    }
}

// Whether no channel from 1 to n has more messages than it can hold.
fn channels_sound(k: &[u8], n: usize) -> bool
    requires { (length k.now ≡ block_size) × (n ≤ nodes) }
    ensures { result ≡ channels_sound n k.now }
{
    // A test without branches, as over the cells of a record: no count waits for the one before it.
    let mut ok = true;
    for a in 0..n {
        ok &= waiting_in(k, a + 1) <= CAPACITY;
    }
    ok
}

// Whether refusal 2 has nothing against the block of node c of n, f of which may stop, where there may be such a node.
#[tactic(auto, unfolding(crate::specs::Block::block_sound, crate::specs::Block::record_in, octets::specs::Bytes::part))]
pub fn block_sound(k: &[u8], n: usize, f: usize, c: usize) -> bool
    requires { (length k.now ≡ block_size) × (sizes_within n f c ≡ true) }
    ensures { result ≡ block_sound n f c k.now }
{
    record_sound(&k[RECORD_PLACE..CHANNELS_PLACE], n, f, c) && channels_sound(k, n)
}
