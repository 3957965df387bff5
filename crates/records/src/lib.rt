// The solver for a network lent as a slice of records. Document 01, "The floor and its flow": "The network may also be lent as a list of belt
// records, checked and copied before any work". Only `solve` holds the slice: what it calls has arrays and slices of numbers.
#![tactic(auto)]

mod judge;
mod sizes;

ghost use Rattle.records.specs.Records.{Recorded};

use method::Answer;
use network::Refusal;
use packed::{CAPACITIES, HEADS, MARKS, NET_NUMBERS, TAILS};

// Document 01's belt. Its mark is not zero if the belt is reversible (request C-12).
#[derive(Clone, Copy)]
pub struct Arc {
    pub tail: u64,
    pub head: u64,
    pub capacity: u64,
    pub mark: u64,
}

// What a call returns: why it is turned down, or its answer.
pub type Reply = Result<Answer, Refusal>;

// Solves the network of n nodes with these arcs, with a commodity for every two numbers of `pairs`, source and sink, and with `limits` for the
// first nodes, 0 for none (request C-17): sizes and tables are checked, the records copied into the columns of one array, and what they say is
// checked there before it is solved.
pub fn solve(
    n: u64,
    q: u64,
    arcs: &[Arc],
    pairs: &[u64],
    limits: &[u64],
    flow: &mut [i64],
    lengths: &mut [u64],
) -> Reply
    ensures { Recorded n q arcs.now pairs.now limits.now flow.old lengths.old flow.new lengths.new result }
{
    let m = arcs.len();
    sizes::check_call(n, q, m, pairs.len(), limits, flow.len(), lengths.len())?;
    let mut net = [0u64; NET_NUMBERS];
    for (e, a) in arcs.iter().enumerate() {
        net[TAILS + e] = a.tail;
        net[HEADS + e] = a.head;
        net[CAPACITIES + e] = a.capacity;
        net[MARKS + e] = a.mark;
    }
    judge::check_copy(n, m, net, pairs, limits)?;
    Ok(judge::deliver(n, q, m, net, pairs, limits, flow, lengths))
}
