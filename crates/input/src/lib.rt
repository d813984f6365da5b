// Input of any length as lines, in constant memory: what is kept of the line that is being read.
#![tactic(auto)]

ghost use Rattle.std.specs.Prelude.{◌≡◌, []};
ghost use Rattle.input.specs.Carry.{event_in, first_in};
ghost use Rattle.input.specs.Carry.{push as Carry·push, carry_of};

use lines::{Command, Opening};

// The most bytes of a line that are kept.
const MOST: usize = 40;

// The first bytes of a line, and its length, where MOST + 1 stands for every greater one.
#[derive(Clone, Copy)]
pub struct Carry {
    pub bytes: [u8; MOST],
    pub size: usize,
}

// What is kept where no byte of a line has been read.
#[tactic(auto, unfolding(crate::specs::Carry::carry_of))]
pub fn none() -> Carry
    ensures { result ≡ carry_of [] }
{
    Carry {
        bytes: [0; MOST],
        size: 0,
    }
}

// One byte more of the line.
#[tactic(auto, unfolding(crate::specs::Carry::push))]
pub fn push(c: Carry, x: u8) -> Carry
    ensures { result ≡ Carry·push c x }
{
    if c.size < MOST {
        let mut bytes = c.bytes;
        bytes[c.size] = x;
        Carry {
            bytes,
            size: c.size + 1,
        }
    } else {
        Carry {
            size: MOST + 1,
            ..c
        }
    }
}

// The event that a line is; none where it is bad.
#[tactic(auto, unfolding(crate::specs::Carry::event_in))]
pub fn event(c: Carry) -> Option<Command>
    ensures { result ≡ event_in c }
{
    if c.size <= MOST {
        lines::event(&c.bytes[..c.size])
    } else {
        None
    }
}

// What the first line says; nothing where it is bad.
#[tactic(auto, unfolding(crate::specs::Carry::first_in))]
pub fn first(c: Carry) -> Option<Opening>
    ensures { result ≡ first_in c }
{
    if c.size <= MOST {
        lines::first(&c.bytes[..c.size])
    } else {
        None
    }
}
