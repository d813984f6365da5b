// One channel (document 01's trunk) in its own run of bytes.
ghost use Rattle.std.specs.Prelude.{◌≡◌, ◌≤◌, length};
ghost use Rattle.region.specs.Channel.{channel_size, slot_size, first as first_in, push as pushed, pop as popped};
ghost use Rattle.region.specs.Channel.{clear as cleared};

use crate::places::{CAPACITY, COUNT_PLACE, OLDEST_PLACE, SLOT, SLOTS_PLACE};

// The capacity as a count.
pub const FULL: u8 = CAPACITY as u8;

// Puts a message at the end of a channel; nothing where it is full.
#[tactic(auto, unfolding(crate::specs::Channel::push))]
pub fn push(t: &mut [u8], m: &[u8])
    requires { (length t.old ≡ channel_size) × (length m.now ≤ slot_size) }
    ensures { t.new ≡ pushed m.now t.old }
{
    let count = t[COUNT_PLACE];
    if count < FULL {
        let oldest = usize::from(t[OLDEST_PLACE]);
        let at = SLOTS_PLACE + SLOT * ((oldest + usize::from(count)) % CAPACITY);
        octets::put_bytes(t, at, m);
        t[COUNT_PLACE] = count + 1;
    }
}

// Takes the oldest message off a channel; nothing where it is empty.
#[tactic(auto, unfolding(crate::specs::Channel::pop))]
pub fn pop(t: &mut [u8])
    requires { length t.old ≡ channel_size }
    ensures { t.new ≡ popped t.old }
{
    if 0 < t[COUNT_PLACE] {
        t[COUNT_PLACE] -= 1;
        t[OLDEST_PLACE] = ((usize::from(t[OLDEST_PLACE]) + 1) % CAPACITY) as u8;
    }
}

// Empties a channel.
#[tactic(auto, unfolding(crate::specs::Channel::clear))]
pub fn clear(t: &mut [u8])
    requires { length t.old ≡ channel_size }
    ensures { t.new ≡ cleared t.old }
{
    t[COUNT_PLACE] = 0;
}

// The slot of the oldest message.
#[tactic(auto, unfolding(octets::specs::Bytes::part))]
pub fn first(t: &[u8]) -> &[u8]
    requires { length t.now ≡ channel_size }
    ensures { result.now ≡ first_in t.now }
{
    let at = SLOTS_PLACE + SLOT * (usize::from(t[OLDEST_PLACE]) % CAPACITY);
    &t[at..at + SLOT]
}
