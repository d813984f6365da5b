// A message forwarded from slot to slot: its bytes are copied from where they came in, within the cluster's bytes.
ghost use Rattle.std.specs.Prelude.{◌≡◌, ◌+◌, ◌<◌, ◌≤◌, length};
ghost use Rattle.octets.specs.Bytes.{put};
ghost use Rattle.octets.specs.Word.{word_size};
ghost use Rattle.view.specs.Size.{nodes};
ghost use Rattle.region.specs.Channel.{slot_size, oldest};
ghost use Rattle.block.specs.Block.{receive};
ghost use Rattle.layout.specs.Layout.{cluster_size, channel, on_block};
ghost use Rattle.layout.specs.Slot.{channel_at, slot_place, slot_from, IsSlot};

use crate::{block_place, stopped_at};
use block::channel_place;
use octets::copy_within;
use region::channel::FULL;
use region::places::{CAPACITY, COUNT_PLACE, OLDEST_PLACE, SLOT, SLOTS_PLACE};

// Where the channel from a to c stands.
fn channel_at(a: usize, c: usize) -> usize
    requires { (1 ≤ a) × (a ≤ nodes) × (1 ≤ c) × (c ≤ nodes) }
    ensures { result ≡ channel_at a c }
{
    block_place(c) + channel_place(a)
}

// Where the slot of the message that has waited longest on the channel from a to c stands.
pub fn first_place(b: &[u8], a: usize, c: usize) -> usize
    requires { (1 ≤ a) × (a ≤ nodes) × (1 ≤ c) × (c ≤ nodes) × (cluster_size c ≤ length b.now) }
    ensures { result ≡ slot_place a c (oldest (channel b.now a c)) }
{
    let at = channel_at(a, c);
    at + (SLOTS_PLACE + SLOT * (usize::from(b[at + OLDEST_PLACE]) % CAPACITY))
}

// The slot at `to` gets the message of so many bytes that stands in the slot at `from`, and zeros after it. It may be
// the very slot that the message stands in, so no more than what comes after the message is cleared.
fn fill_slot(b: &mut [u8], from: usize, to: usize, len: usize)
    requires { (word_size ≤ len) × (len ≤ slot_size) × (from + len ≤ length b.old)
        × (to + slot_size ≤ length b.old)
        × (from < to → from + slot_size ≤ to) × (to < from → to + slot_size ≤ from) }
    ensures { b.new ≡ put b.old to (slot_from b.old from len) }
{
    b[to + len..to + SLOT].fill(0);
    copy_within(b, from, to, len);
}

// Node c receives from a the message of so many bytes that stands in a slot of the cluster, at `from`, unless it has
// stopped.
pub fn forward_at(b: &mut [u8], from: usize, len: usize, a: usize, c: usize)
    requires { (1 ≤ a) × (a ≤ nodes) × (1 ≤ c) × (c ≤ nodes) × (cluster_size c ≤ length b.old)
        × (word_size ≤ len) × (len ≤ slot_size) × (from + len ≤ length b.old) × IsSlot nodes from }
    ensures { b.new ≡ on_block c (receive a (slot_from b.old from len)) b.old }
{
    if stopped_at(b, c) {
        return;
    }
    let at = channel_at(a, c);
    let count = b[at + COUNT_PLACE];
    if count < FULL {
        let oldest = usize::from(b[at + OLDEST_PLACE]);
        let to = at + (SLOTS_PLACE + SLOT * ((oldest + usize::from(count)) % CAPACITY));
        fill_slot(b, from, to, len);
        b[at + COUNT_PLACE] = count + 1;
    }
}
