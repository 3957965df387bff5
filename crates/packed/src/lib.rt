// The network as one slice of numbers: its columns stand at fixed places, each with room for the most arcs, commodities or nodes. It travels from the
// calls down to the loops with its shape; only a loop over a column cuts that column out.
#![tactic(auto)]

use bounds::{MOST_ARCS, MOST_COMMODITIES, MOST_NODES};

// n, m, k, how many of the nodes' limits are given, and how many resources there are: the arcs and the limited nodes.
#[derive(Clone, Copy)]
pub struct Shape {
    pub nodes: u64,
    pub arcs: usize,
    pub commodities: usize,
    pub limits: usize,
    pub resources: usize,
}

// Where each column begins.
pub const TAILS: usize = 0;

pub const HEADS: usize = MOST_ARCS;

pub const CAPACITIES: usize = 2 * MOST_ARCS;

pub const SOURCES: usize = 3 * MOST_ARCS;

pub const SINKS: usize = 3 * MOST_ARCS + MOST_COMMODITIES;

pub const MARKS: usize = 3 * MOST_ARCS + 2 * MOST_COMMODITIES;

pub const LIMITS: usize = 4 * MOST_ARCS + 2 * MOST_COMMODITIES;

// And how many numbers they take in all.
pub const NET_NUMBERS: usize = LIMITS + MOST_NODES as usize;

// The tables of the resources as one slice too: their lengths, loads and kept lengths. Where each begins,
pub const LENGTHS: usize = 0;

pub const LOADS: usize = MOST_ARCS;

pub const KEPT: usize = 2 * MOST_ARCS;

// and how many numbers they take in all.
pub const TABLE_NUMBERS: usize = 3 * MOST_ARCS;

// A network: its shape, and the slice that has its columns.
#[derive(Clone, Copy)]
pub struct Net<'a> {
    pub shape: Shape,
    pub numbers: &'a [u64],
}
