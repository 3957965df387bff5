// The page of a node: the distances of all nodes to it, and an order of the nodes, along which a search looks for those that are on its list.
#![tactic(auto)]

pub mod list;
pub mod order;
pub mod scan;
pub mod sort;

use bounds::MOST_NODES;

// The distances come first, by node, from place 0 on: so many numbers,
pub const DISTANCE_NUMBERS: usize = MOST_NODES as usize + 1;

// and behind them, from this place on, the nodes in the order in which a search looks at them.
pub const ORDER: usize = DISTANCE_NUMBERS;

// How many numbers that takes.
pub const PAGE_NUMBERS: usize = ORDER + MOST_NODES as usize;
