// Bounds raised by a table that is feasible for some node. By any such table the paths of every commodity are no shorter than what its source's entry is above
// its sink's, whatever the node that the table is for.
ghost use Rattle.std.specs.Prelude.{◌≡◌, ◌≤◌, ◌<◌};
ghost use Rattle.paths.specs.Through.{through};
ghost use Rattle.memory.specs.Raised.{told_by, Telling, Raising, RaisedAt, AllRaised};

use crate::{BOUNDS, PAGES};
use bounds::MOST_NODES;
use packed::{Net, SINKS, SOURCES};
use page::{DISTANCE_NUMBERS, PAGE_NUMBERS};
use paths::through;

// A length that no path from v to w is below, with v's own.
pub fn told(ix: &[u64], lengths: &[u64], dist: &[u64], v: u64, w: u64) -> u64
    requires { Telling ix.now lengths.now dist.now v w }
    ensures { result ≡ told_by (through ix.now lengths.now) dist.now v w }
{
    let own = through(ix, lengths, v as usize);
    let from = dist[v as usize];
    let to = dist[w as usize];
    // Kept: saturating_sub was tried, and is slower.
    if from < to {
        return own;
    }
    (from - to) / MOST_NODES + own
}

// The bound of commodity i is raised to what the table of t tells, where that is more; the bound.
fn raise_at(net: &Net<'_>, ix: &[u64], lengths: &[u64], t: u64, i: usize, memory: &mut [u64]) -> u64
    requires raising { Raising net.now.shape net.now.numbers.now ix.now lengths.now t memory.old }
    requires among { i < net.now.shape.commodities }
    ensures { RaisedAt net.now.shape net.now.numbers.now ix.now lengths.now t i memory.old memory.new result }
{
    let at = PAGES + PAGE_NUMBERS * t as usize;
    let x = told(
        ix,
        lengths,
        &memory[at..at + DISTANCE_NUMBERS],
        net.numbers[SOURCES + i],
        net.numbers[SINKS + i],
    );
    let old = memory[BOUNDS + i];
    // Kept: max was tried, and is slower.
    let bound = if old < x { x } else { old };
    memory[BOUNDS + i] = bound;
    bound
}

// The bounds of all commodities are raised so; the lowest-numbered commodity of least bound.
pub fn raise(net: &Net<'_>, ix: &[u64], lengths: &[u64], t: u64, memory: &mut [u64]) -> usize
    requires raising { Raising net.now.shape net.now.numbers.now ix.now lengths.now t memory.old }
    requires some { 1 ≤ net.now.shape.commodities }
    ensures { AllRaised net.now.shape net.now.numbers.now ix.now lengths.now t memory.old memory.new result }
{
    let mut b = 0;
    for i in 0..net.shape.commodities {
        let bound = raise_at(net, ix, lengths, t, i, memory);
        if bound < memory[BOUNDS + b] {
            b = i;
        }
    }
    b
}
