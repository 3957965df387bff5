// One iteration on the lent slices.
ghost use Rattle.std.specs.Prelude.{◌≤◌, length};
ghost use Rattle.bounds.specs.Bounds.{most_nodes};
ghost use Rattle.packed.specs.Packed.{network_of};
ghost use Rattle.memory.specs.Memory.{memory_numbers};
ghost use Rattle.step.specs.Progress.{state_in};
ghost use Rattle.run.specs.Noted.{Iterating, Kept, Onward};
ghost use Rattle.run.specs.Runs.{Space};

use choice::RESOURCE_CAPACITIES;
use memory::pages::forget;
use packed::{LENGTHS, Net};
use step::Progress;

// What is remembered is forgotten where the lengths were halved: only then can a path be shorter than it was.
fn keep(halved: bool, n: u64, memory: &mut [u64])
    requires { (n ≤ most_nodes) × (memory_numbers ≤ length memory.old) }
    ensures { Kept halved n memory.old memory.new }
{
    if halved {
        forget(n, memory);
    }
}

// One iteration: the choice by the lengths, which some commodity joined makes certain, and the step along its path.
pub fn iterate(
    q: u64,
    threshold: u64,
    net: &Net<'_>,
    indexes: &[u64],
    flow: &mut [i64],
    tables: &mut [u64],
    memory: &mut [u64],
    path: &mut [u64],
    p: Progress,
) -> Progress
    requires room { Space net.now.shape q net.now.numbers.now indexes.now (length tables.old) (length path.old) }
    requires iterating { Iterating net.now.shape (network_of net.now) q threshold memory.old (state_in net.now.shape flow.old tables.old p) p }
    ensures { Onward net.now.shape (network_of net.now) q (state_in net.now.shape flow.old tables.old p) (state_in net.now.shape flow.new tables.new result) memory.new result }
{
    let m = net.shape.resources;
    let c = choice::choose(net, indexes, &tables[LENGTHS..LENGTHS + m], memory, path).unwrap();
    let r = step::step(
        q,
        threshold,
        net,
        &indexes[RESOURCE_CAPACITIES..RESOURCE_CAPACITIES + m],
        c,
        &path[..c.used],
        flow,
        tables,
        p,
    );
    keep(r.halved, net.shape.nodes, memory);
    r
}
