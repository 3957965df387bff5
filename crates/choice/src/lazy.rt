// The nearest commodity, found lazily. Each commodity has a bound, a length that its paths are not below, and each sink a page with a feasible table: both
// hold on while lengths only grow. One of least bound is chosen once its walk arrives by the page of its sink, with a length that is its bound: then no path
// of any commodity is shorter. Only where the walk is stuck is the sink searched, and what is found raises the bounds of all commodities.
// The number of arcs, which a distance has beside the length, does not count between commodities.
ghost use Rattle.std.specs.Prelude.{length};
ghost use Rattle.network.specs.Network.{sink};
ghost use Rattle.packed.specs.Packed.{network_of};
ghost use Rattle.memory.specs.Memory.{bounds_in, distances_in};
ghost use Rattle.choice.specs.Calls.{Looking, Following, Choosing};
ghost use Rattle.choice.specs.Closest.{Nearest};
ghost use Rattle.choice.specs.Looked.{Looked, Followed};

use crate::{INTO, OUT};
use index::INDEX_NUMBERS;
use memory::raise::{raise, told};
use memory::{BOUNDS, LEAST, PAGES};
use packed::{Net, SINKS, SOURCES};
use page::{DISTANCE_NUMBERS, PAGE_NUMBERS};
use search::distances;
use walk::walk;

// The distances to t, the sink of commodity i, are searched for, and all bounds raised by them; the lowest-numbered commodity of least bound now. i is taken
// for the contract.
fn look(net: &Net<'_>, into: &[u64], lengths: &[u64], t: u64, i: usize, memory: &mut [u64]) -> usize
    requires { Looking net.now.shape net.now.numbers.now into.now lengths.now t i memory.old }
    ensures { Looked net.now.shape (network_of net.now) lengths.now t memory.old memory.new result }
{
    let at = PAGES + PAGE_NUMBERS * t as usize;
    distances(net, into, lengths, t, &mut memory[at..at + PAGE_NUMBERS]);
    raise(net, into, lengths, t, memory)
}

// The walk of commodity i by the page of its sink; how many arcs it has, None where it is stuck or its length is not the
// bound.
fn follow(
    net: &Net<'_>,
    indexes: &[u64],
    lengths: &[u64],
    i: usize,
    memory: &[u64],
    path: &mut [u64],
) -> Option<usize>
    requires { Following net.now.shape net.now.numbers.now indexes.now lengths.now i memory.now (length path.old) }
    ensures { Followed (network_of net.now) lengths.now (bounds_in net.now.shape memory.now) (distances_in (sink (network_of net.now) i) memory.now) i path.new result }
{
    let out = &indexes[OUT..OUT + INDEX_NUMBERS];
    let source = net.numbers[SOURCES + i];
    let sink = net.numbers[SINKS + i];
    let at = PAGES + PAGE_NUMBERS * sink as usize;
    let dist = &memory[at..at + DISTANCE_NUMBERS];
    if told(out, lengths, dist, source, sink) != memory[BOUNDS + i] {
        return None;
    }
    walk(net, out, lengths, dist, source, sink, path)
}

// The lowest-numbered commodity whose sink is nearest to its source is noted in memory, and its walk written into path;
// how many arcs that has, None where no commodity is joined. The commodity noted last has just been drawn, so that its
// sink is searched first.
pub fn nearest(
    net: &Net<'_>,
    indexes: &[u64],
    lengths: &[u64],
    memory: &mut [u64],
    path: &mut [u64],
) -> Option<usize>
    requires { Choosing net.now.shape net.now.numbers.now indexes.now lengths.now memory.old (length path.old) }
    ensures { Nearest net.now.shape (network_of net.now) lengths.now memory.new path.new result }
{
    let mut i = memory[LEAST] as usize;
    let arcs = loop {
        let t = net.numbers[SINKS + i];
        i = look(
            net,
            &indexes[INTO..INTO + INDEX_NUMBERS],
            lengths,
            t,
            i,
            memory,
        );
        let arcs = follow(net, indexes, lengths, i, memory, path);
        if arcs.is_some() || net.numbers[SINKS + i] == t {
            break arcs;
        }
    };
    memory[LEAST] = i as u64;
    arcs
}
