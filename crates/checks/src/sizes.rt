// The sizes of a call: 1 to 4 of document 01's table, "Turned down", in its order, and request C-17's 15 after 2.
ghost use Rattle.std.specs.Prelude.{◌≡◌};
ghost use Rattle.network.specs.Verdict.{verdict, outside, size_conditions};

use bounds::{
    LEAST_NODES, LEAST_PRECISION, MOST_ARCS, MOST_COMMODITIES, MOST_NODES, MOST_PRECISION,
};
use network::{Refusal, Verdict};

// x is none of lo, .., hi.
pub fn outside(lo: u64, hi: u64, x: u64) -> bool
    ensures { result ≡ outside lo hi x }
{
    x < lo || hi < x
}

// 1, 2, 15, 3 and 4: nodes, arcs, resources, commodities, precision.
pub fn check_sizes(n: u64, m: usize, r: usize, k: usize, q: u64) -> Verdict
    ensures { result ≡ verdict (size_conditions n m r k q) }
{
    if outside(LEAST_NODES, MOST_NODES, n) {
        return Err(Refusal::Nodes);
    }
    if outside(1, MOST_ARCS as u64, m as u64) {
        return Err(Refusal::Arcs);
    }
    if MOST_ARCS < r {
        return Err(Refusal::Resources);
    }
    if outside(1, MOST_COMMODITIES as u64, k as u64) {
        return Err(Refusal::Commodities);
    }
    if outside(LEAST_PRECISION, MOST_PRECISION, q) {
        return Err(Refusal::Precision);
    }
    Ok(())
}
