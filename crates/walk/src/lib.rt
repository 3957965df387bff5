// The greedy walk by a feasible table: from a node over the lowest-numbered tight arc, until the sink. Where it arrives, its path is the nearest and the
// first; where the table is out of date it is stuck.
// The network is taken for the contracts, which speak of it; the arcs are read from the index of those out of each node.
#![tactic(auto)]

ghost use Rattle.std.specs.Prelude.{◌≡◌, length};
ghost use Rattle.network.specs.Path.{beyond};
ghost use Rattle.packed.specs.Packed.{network_of};
ghost use Rattle.paths.specs.Calls.{Leaving};
ghost use Rattle.paths.specs.Tight.{over_at, Offered, Sought};
ghost use Rattle.paths.specs.Visits.{Entering, Entered, Crossed, Visiting, Visits};
ghost use Rattle.paths.specs.Walked.{Walkable, Walked};

use index::{ARCS, ENDS, PLACES};
use packed::{HEADS, Net, TAILS};
use paths::{over, through};

// How far the way over the arc at place p is.
fn over_at(out: &[u64], lengths: &[u64], dist: &[u64], p: usize) -> u64
    requires { Offered out.now lengths.now dist.now p }
    ensures { result ≡ over_at out.now lengths.now dist.now p }
{
    let w = out[ENDS + p] as usize;
    let x = through(out, lengths, w);
    over(lengths, dist, x, out[ARCS + p] as usize, w)
}

// The place of the lowest-numbered tight arc from v.
fn tight(net: &Net<'_>, out: &[u64], lengths: &[u64], dist: &[u64], v: u64) -> Option<usize>
    requires { Leaving (network_of net.now) out.now lengths.now dist.now v }
    ensures { Sought (network_of net.now) out.now lengths.now dist.now v result }
{
    let d = dist[v as usize];
    let end = out[v as usize + 1] as usize;
    for p in out[v as usize] as usize..end {
        if over_at(out, lengths, dist, p) == d {
            return Some(p);
        }
    }
    None
}

// The walk from the source to the sink is written into path. How many arcs it has, and no path that is as short has
// fewer; None where it is stuck.
pub fn walk(
    net: &Net<'_>,
    out: &[u64],
    lengths: &[u64],
    dist: &[u64],
    source: u64,
    sink: u64,
    path: &mut [u64],
) -> Option<usize>
    requires { Walkable (network_of net.now) out.now lengths.now dist.now source sink (length path.old) }
    ensures { Walked (network_of net.now) lengths.now dist.now source sink path.new result }
{
    let mut v = source;
    let mut arcs = 0;
    while v != sink {
        let p = tight(net, out, lengths, dist, v)?;
        path[arcs] = out[ARCS + p];
        arcs += 1;
        v = out[ENDS + p];
    }
    Some(arcs)
}

// The resource of node v comes behind the first numbers of path, if v is limited. How many numbers there are now.
fn enter(net: &Net<'_>, out: &[u64], v: u64, used: usize, path: &mut [u64]) -> usize
    requires { Entering net.now.shape net.now.numbers.now out.now v used (length path.old) }
    ensures { Entered (network_of net.now) v used path.old path.new result }
{
    let r = out[PLACES + v as usize];
    if r < net.shape.resources as u64 {
        path[used] = r;
        return used + 1;
    }
    used
}

// The other end of arc e, seen from node v.
fn beyond(net: &Net<'_>, v: u64, e: usize) -> u64
    requires { Crossed net.now.shape net.now.numbers.now e }
    ensures { result ≡ beyond (network_of net.now) v e }
{
    let tail = net.numbers[TAILS + e];
    if tail == v {
        return net.numbers[HEADS + e];
    }
    tail
}

// The limited nodes that the path of so many arcs visits, the source and the sink among them, are written behind its arcs. How many resources it uses.
// Where no node is limited there is nothing to look for.
pub fn visit(net: &Net<'_>, out: &[u64], source: u64, arcs: usize, path: &mut [u64]) -> usize
    requires { Visiting net.now.shape net.now.numbers.now out.now source arcs path.old }
    ensures { Visits (network_of net.now) source arcs path.old path.new result }
{
    if net.shape.resources == net.shape.arcs {
        return arcs;
    }
    let mut used = enter(net, out, source, arcs, path);
    let mut at = source;
    // Kept: enter writes path meanwhile, so its arcs cannot be lent to the loop.
    for i in 0..arcs {
        let to = beyond(net, at, path[i] as usize);
        used = enter(net, out, to, used, path);
        at = to;
    }
    used
}
