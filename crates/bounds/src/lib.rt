// Document 01's bounds, each named once for the code. The definitions name the same numbers (in
// specs/); docs/WORKING.md says which step of a proof stops each of them from growing.
#![tactic(auto)]

// Nodes. Document 01, "The floor and its flow".
pub const LEAST_NODES: u64 = 2;

pub const MOST_NODES: u64 = 64;

// Arcs, and arcs with limited nodes together (request C-17); and commodities. At least 1 of each.
pub const MOST_ARCS: usize = 256;

pub const MOST_COMMODITIES: usize = 32;

// An arc's capacity and a node's limit, at least 1.
pub const MOST_CAPACITY: u64 = 1000;

// The precision q: the method's epsilon is 1 / q.
pub const LEAST_PRECISION: u64 = 4;

pub const MOST_PRECISION: u64 = 16;

// The bytes of a file.
pub const MOST_BYTES: usize = 65536;

// The running count of an office up to which its call is accepted.
pub const MOST_RUNNING: u64 = 1 << 63;

// The offices, each with its count (request C-20), numbered from 1.
pub const OFFICES: usize = 8;

// How many numbers an answer has.
pub const ANSWER_NUMBERS: usize = 7;

// The networks of one site's call, at least 1, and how many numbers tell of each (requests C-14 and C-17).
pub const MOST_NETWORKS: usize = 16;

pub const FLOOR_NUMBERS: usize = 7;

// What a refusal's number is multiplied by in a host call's result: places are below it.
pub const PLACE_NUMBERS: u64 = 1000;
