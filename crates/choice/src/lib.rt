// The path of an iteration: of all commodities the one whose sink is nearest to its source, and of its shortest paths with fewest arcs the first.
#![tactic(auto)]

mod lazy;

ghost use Rattle.std.specs.Prelude.{length};
ghost use Rattle.packed.specs.Packed.{network_of};
ghost use Rattle.choice.specs.Calls.{Choosing};
ghost use Rattle.choice.specs.Chose.{Left};

use crate::lazy::nearest;
use bounds::{MOST_ARCS, MOST_NODES};
use index::INDEX_NUMBERS;
use memory::{BOUNDS, LEAST};
use method::Selected;
use packed::{Net, SOURCES};
use walk::visit;

// A place for each arc of a path, which has fewer arcs than there are nodes, and for each of its nodes.
pub const PATH_NUMBERS: usize = 2 * MOST_NODES as usize;

// Both indexes of the arcs in one slice: of those into each node, and of those out of it. And behind them the capacities of the resources.
pub const INTO: usize = 0;

pub const OUT: usize = INDEX_NUMBERS;

pub const RESOURCE_CAPACITIES: usize = 2 * INDEX_NUMBERS;

pub const INDEXES_NUMBERS: usize = RESOURCE_CAPACITIES + MOST_ARCS;

// The choice of an iteration, None where no commodity is joined. What its path uses are the first entries of path: the
// arcs, and behind them the limited nodes. The memory may be used again while lengths only grow.
pub fn choose(
    net: &Net<'_>,
    indexes: &[u64],
    lengths: &[u64],
    memory: &mut [u64],
    path: &mut [u64],
) -> Option<Selected>
    requires { Choosing net.now.shape net.now.numbers.now indexes.now lengths.now memory.old (length path.old) }
    ensures { Left net.now.shape (network_of net.now) lengths.now result path.new memory.new }
{
    // A copy of its own, which no store into path or memory can change: what it holds stays in registers.
    let own = *net;
    let net = &own;
    let arcs = nearest(net, indexes, lengths, memory, path)?;
    let i = memory[LEAST] as usize;
    let used = visit(
        net,
        &indexes[OUT..OUT + INDEX_NUMBERS],
        net.numbers[SOURCES + i],
        arcs,
        path,
    );
    Some(Selected {
        commodity: i,
        arcs,
        used,
        alpha: memory[BOUNDS + i],
    })
}
