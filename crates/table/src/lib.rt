// Two modules of the tables of one node: views and the tags heard, and sets of nodes with their quorums.
// Nodes are numbered from 1 to n, n at most `NODES`. A view by value has `NODES` entries, whatever n is.
#![tactic(auto)]

pub mod quorum;
pub mod views;

use view::NODES;

// The cells of the square table of the tags heard, one for each sender and writer.
pub const CELLS: usize = NODES * NODES;
