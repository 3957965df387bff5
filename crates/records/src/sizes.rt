// The sizes of a call and of the tables that it lends: 1 to 5 of document 01's table, "Turned down", in its order, and request C-17's 15 after 2.
ghost use Rattle.std.specs.Prelude.{◌≡◌, ◌++◌, ◌+◌, ◌/◌, ◌^◌, ◌≤◌, ◌<◌, length};
ghost use Rattle.bounds.specs.Bounds.{most_arcs, most_commodities};
ghost use Rattle.network.specs.Given.{given};
ghost use Rattle.network.specs.Verdict.{verdict, size_conditions};
ghost use Rattle.records.specs.Parts.{limits_read, resources_of, shape_of};
ghost use Rattle.records.specs.Records.{record_conditions};

use checks::sizes::check_sizes;
use network::{Refusal, Verdict};
use packed::Shape;

// How many of the first c limits are not 0.
fn count_given(limits: &[u64], c: usize) -> usize
    requires { c ≤ length limits.now }
    ensures { result ≡ given limits.now c }
{
    let mut r = 0;
    for i in 0..c {
        if limits[i] != 0 {
            r += 1;
        }
    }
    r
}

// The shape of a call of m records and of this many numbers in `pairs`.
pub fn shape(n: u64, m: usize, pairs: usize, limits: &[u64]) -> Shape
    requires { m + limits_read n limits.now < 2 ^ 64 }
    ensures { result ≡ shape_of n m pairs limits.now }
{
    let c = limits.len().min(n as usize);
    let r = m + count_given(limits, c);
    Shape {
        nodes: n,
        arcs: m,
        commodities: pairs / 2,
        limits: c,
        resources: r,
    }
}

// 5, as far as it speaks of flow and lengths, which have this many places.
#[tactic(auto, unfolding(crate::specs::Records::record_conditions, network::specs::Verdict::verdict))]
fn check_tables(k: usize, m: usize, r: usize, flow: usize, lengths: usize) -> Verdict
    requires { (k ≤ most_commodities) × (m ≤ most_arcs) }
    ensures { result ≡ verdict (record_conditions k m r flow lengths) }
{
    if flow < k * m {
        return Err(Refusal::ShortTable);
    }
    if lengths < r {
        return Err(Refusal::ShortTable);
    }
    Ok(())
}

// The same, of this shape, with this many numbers in `flow` and `lengths`.
fn check_shape(s: Shape, q: u64, flow: usize, lengths: usize) -> Verdict
    ensures { result ≡ verdict (size_conditions s.nodes s.arcs s.resources s.commodities q ++ record_conditions s.commodities s.arcs s.resources flow lengths) }
{
    check_sizes(s.nodes, s.arcs, s.resources, s.commodities, q)?;
    check_tables(s.commodities, s.arcs, s.resources, flow, lengths)
}

// A call of m records and of this many numbers in `pairs`, `flow` and `lengths`.
pub fn check_call(
    n: u64,
    q: u64,
    m: usize,
    pairs: usize,
    limits: &[u64],
    flow: usize,
    lengths: usize,
) -> Verdict
    requires { m + limits_read n limits.now < 2 ^ 64 }
    ensures { result ≡ verdict (size_conditions n m (resources_of n m limits.now) (pairs / 2) q ++ record_conditions (pairs / 2) m (resources_of n m limits.now) flow lengths) }
{
    check_shape(shape(n, m, pairs, limits), q, flow, lengths)
}
