// Distances to a sink by correcting labels: a node that has come nearer goes onto a list, and one after the other is taken out and the arcs into it
// relaxed, until the list is empty. Which one is next is told by an order of the nodes, and a search leaves that to the next.
#![tactic(auto)]

mod relax;

ghost use Rattle.std.specs.Prelude.{◌≡◌, ◌++◌, ◌+◌, ◌≤◌, ◌<◌, length, set, drop, replicate};
ghost use Rattle.packed.specs.Packed.{network_of};
ghost use Rattle.paths.specs.Calls.{Seeking};
ghost use Rattle.paths.specs.Far.{far};
ghost use Rattle.paths.specs.Worklist.{Worklist};
ghost use Rattle.paths.specs.Order.{Searched};

use crate::relax::relax_into;
use bounds::MOST_NODES;
use packed::Net;
use page::list::{enlist, take_out};
use page::scan::scan;
use page::sort::sort;

// No path without a loop is as long: at most 63 arcs and 64 nodes of lengths below 2^40.
pub const FAR_LENGTH: u64 = 0x8000_0000_0000;

// A distance has the number of arcs beside the length: none of such a path is as far.
const FAR: u64 = MOST_NODES * FAR_LENGTH;

// An order that a search has begun again so often is sorted for the next one.
const MOST_ROUNDS: u64 = 2;

// No way to the sink is known from any node, and none is needed at the sink.
fn reset(n: u64, sink: u64, dist: &mut [u64])
    requires { (n < length dist.old) × (sink ≤ n) }
    ensures { dist.new ≡ set (replicate (n + 1) far ++ drop (n + 1) dist.old) sink 0 }
{
    // Kept: std's fill was tried, and is slower.
    for v in 0..n as usize + 1 {
        dist[v] = FAR;
    }
    dist[sink as usize] = 0;
}

// The distances, with an empty list lent. Whether the order is sorted is a matter of speed alone.
fn distances_in(
    net: &Net<'_>,
    into: &[u64],
    lengths: &[u64],
    sink: u64,
    page: &mut [u64],
    listed: &mut [u64],
)
    requires seeking { Seeking (network_of net.now) into.now lengths.now sink page.old }
    requires empty { Worklist (network_of net.now).nodes listed.old 0 }
    ensures { Searched (network_of net.now) lengths.now page.new sink }
{
    let n = net.shape.nodes;
    reset(n, sink, page);
    let mut size = enlist(true, n, sink, listed, 0);
    let mut from = 0;
    let mut rounds: u64 = 0;
    while size > 0 {
        let at = match scan(n, page, listed, from) {
            Some(at) => at,
            None => {
                rounds = rounds.saturating_add(1);
                scan(n, page, listed, 0).unwrap()
            }
        };
        from = at + 1;
        let v = take_out(n, page, at, listed, size);
        size = relax_into(net, into, lengths, sink, v, page, listed, size - 1);
    }
    if rounds >= MOST_ROUNDS {
        sort(n, page);
    }
}

// The distance of every node to the sink, FAR where it is not reached. The network is taken for the contract, which speaks of it; the arcs are read from
// into, the index of those into each node.
pub fn distances(net: &Net<'_>, into: &[u64], lengths: &[u64], sink: u64, page: &mut [u64])
    requires { Seeking (network_of net.now) into.now lengths.now sink page.old }
    ensures { Searched (network_of net.now) lengths.now page.new sink }
{
    let mut listed = [0u64; MOST_NODES as usize + 1];
    distances_in(net, into, lengths, sink, page, &mut listed);
}
