// The reader of the DIMACS maximum flow layout: from the bytes of a file to a network of one commodity, or a refusal.
#![tactic(auto)]

use bounds::MOST_ARCS;

mod reader;

pub use reader::read;

// What the p line and the lines after it gave so far, beside the tables of arcs.
#[derive(Clone, Copy)]
pub struct Tally {
    pub nodes: u64,
    pub wanted: usize,
    pub found: usize,
    pub source: Option<u64>,
    pub sink: Option<u64>,
}

// What a file holds.
#[derive(Clone, Copy)]
pub struct Parsed {
    pub nodes: u64,
    pub arcs: usize,
    pub source: u64,
    pub sink: u64,
    pub tails: [u64; MOST_ARCS],
    pub heads: [u64; MOST_ARCS],
    pub capacities: [u64; MOST_ARCS],
}
