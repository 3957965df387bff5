// Relaxation: of one arc, and of all arcs into a node.
// The network and the sink are taken for the contracts, which speak of them and of the search; the arcs are read from the index of those into each node.
ghost use Rattle.std.specs.Prelude.{◌≡◌, true, ◌+◌, ◌≤◌, ◌<◌, length, get_or};
ghost use Rattle.packed.specs.Packed.{network_of};
ghost use Rattle.paths.specs.Calls.{Reaching, Entering};
ghost use Rattle.paths.specs.Relax.{Taken};
ghost use Rattle.paths.specs.Searching.{Any, Passed, Spread, Reached};

use bounds::MOST_NODES;
use index::{ARCS, ENDS};
use packed::Net;
use page::list::enlist;
use paths::through;

// A way from u that is so far is taken where it is nearer; whether it is. The entry is written in any case, which is quicker than a jump over the store
// (docs/SPEED.md, "Labels without jumps").
fn relax(way: u64, u: usize, dist: &mut [u64]) -> bool
    requires { u < length dist.old }
    ensures { Taken way u dist.old result dist.new }
{
    let old = dist[u];
    let nearer = way < old;
    // Kept: min was tried, and is slower.
    dist[u] = if nearer { way } else { old };
    nearer
}

// More arcs than there may be nodes: many stand side by side, so that few are nearer, and stores to the one entry would wait for each other.
fn crowded(begin: usize, end: usize) -> bool {
    end.saturating_sub(begin) > MOST_NODES as usize
}

// There a look before saves the store: it says so only where the way is no nearer.
fn passed_by(crowd: bool, way: u64, u: usize, dist: &[u64]) -> bool
    requires { u < length dist.now }
    ensures { result ≡ true → get_or dist.now u 0 ≤ way }
{
    crowd && way >= dist[u]
}

// The arc at place p, one of those into v, is relaxed, and the node that it comes from goes onto the list if that brings it nearer. How many are on the list now.
// onward is what the way has beside the arc's own length: it is the same for all arcs into v, as is whether they are a crowd.
fn reach(
    net: &Net<'_>,
    into: &[u64],
    lengths: &[u64],
    sink: u64,
    v: u64,
    onward: u64,
    p: usize,
    dist: &mut [u64],
    listed: &mut [u64],
    size: usize,
    crowd: bool,
) -> usize
    requires { Reaching (network_of net.now) into.now lengths.now sink v onward p dist.old listed.old size }
    ensures { Reached (network_of net.now) lengths.now sink v (Passed into.now v (p + 1)) dist.old size dist.new listed.new result }
{
    let e = into[ARCS + p] as usize;
    let u = into[ENDS + p];
    let way = MOST_NODES * lengths[e] + onward;
    if passed_by(crowd, way, u as usize, dist) {
        return size;
    }
    let nearer = relax(way, u as usize, dist);
    enlist(nearer, net.shape.nodes, u, listed, size)
}

// Every arc into v is relaxed, one after the other. How many are on the search's list now.
pub fn relax_into(
    net: &Net<'_>,
    into: &[u64],
    lengths: &[u64],
    sink: u64,
    v: u64,
    dist: &mut [u64],
    listed: &mut [u64],
    size: usize,
) -> usize
    requires { Entering (network_of net.now) into.now lengths.now sink v dist.old listed.old size }
    ensures { Spread (network_of net.now) lengths.now sink Any dist.old size dist.new listed.new result }
{
    let x = through(into, lengths, v as usize);
    let onward = MOST_NODES * x + 1 + dist[v as usize];
    let mut count = size;
    let begin = into[v as usize] as usize;
    let end = into[v as usize + 1] as usize;
    let crowd = crowded(begin, end);
    for p in begin..end {
        count = reach(
            net, into, lengths, sink, v, onward, p, dist, listed, count, crowd,
        );
    }
    count
}
