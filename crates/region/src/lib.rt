// The two kinds of region in a cluster's bytes: a channel, and the record of a node.
#![tactic(auto)]

pub mod channel;
pub mod head;
pub mod places;
pub mod stored;
