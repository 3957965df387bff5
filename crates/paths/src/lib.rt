// Distances to a sink, and the walk along them: definitions and laws, and what is added up for them. The code is in `search` and `walk`, over the arcs as `index` lays
// them.
#![tactic(auto)]

ghost use Rattle.std.specs.Prelude.{◌≡◌, ◌+◌, ◌<◌, length};
ghost use Rattle.index.specs.Index.{places_from};
ghost use Rattle.paths.specs.Distances.{via};
ghost use Rattle.paths.specs.Relax.{Crossing};
ghost use Rattle.paths.specs.Through.{through};

use bounds::MOST_NODES;
use index::PLACES;

// The length of node v, 0 if it is not limited: by an index, in which such a node has a number past all resources.
pub fn through(ix: &[u64], lengths: &[u64], v: usize) -> u64
    requires { places_from + v < length ix.now }
    ensures { result ≡ through ix.now lengths.now v }
{
    let r = ix[PLACES + v] as usize;
    if r < lengths.len() {
        return lengths[r];
    }
    0
}

// How far the way over arc e to node w is, which has the length x. A distance has the length of a path, times MOST_NODES, and its number of arcs, which is
// below that: so the shorter path is the nearer, and of two as long the one with fewer arcs.
pub fn over(lengths: &[u64], dist: &[u64], x: u64, e: usize, w: usize) -> u64
    requires { Crossing lengths.now dist.now x e w }
    ensures { result ≡ via lengths.now dist.now x e w }
{
    MOST_NODES * (lengths[e] + x) + 1 + dist[w]
}
