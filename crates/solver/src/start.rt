// What is made of the network once, the tables cleared, and the outcome.
ghost use Rattle.std.specs.Prelude.{length};
ghost use Rattle.packed.specs.Packed.{kept_in, network_of};
ghost use Rattle.choice.specs.Calls.{Indexed};
ghost use Rattle.solver.specs.Prepared.{Laying, Preparing, Cleared, Working};
ghost use Rattle.solver.specs.Solved.{Solved};

use crate::outcomes::outcome;
use choice::{INTO, OUT, RESOURCE_CAPACITIES};
use index::INDEX_NUMBERS;
use memory::pages;
use method::Answer;
use packed::{KEPT, LENGTHS, LOADS, Net};

// Both indexes, and the capacities of the resources.
fn index_all(net: &Net<'_>, indexes: &mut [u64])
    requires { Laying net.now.shape net.now.numbers.now (length indexes.old) }
    ensures { Indexed (network_of net.now) indexes.new }
{
    index::index_into(net, &mut indexes[INTO..INTO + INDEX_NUMBERS]);
    index::index_out(net, &mut indexes[OUT..OUT + INDEX_NUMBERS]);
    let m = net.shape.resources;
    index::resource_capacities(
        net,
        &mut indexes[RESOURCE_CAPACITIES..RESOURCE_CAPACITIES + m],
    );
}

// The tables before the first choice: lengths at their start, zeros in the others; D of the lengths. q and the network are taken for the contract.
fn prepare(
    q: u64,
    net: &Net<'_>,
    capacities: &[u64],
    flow: &mut [i64],
    tables: &mut [u64],
    memory: &mut [u64],
) -> u64
    requires { Preparing net.now.shape q net.now.numbers.now capacities.now flow.old tables.old memory.old }
    ensures { Cleared net.now.shape (network_of net.now) flow.new tables.new memory.new result }
{
    let m = net.shape.resources;
    let weight = lengths::start(capacities, &mut tables[LENGTHS..LENGTHS + m]);
    tables[LOADS..LOADS + m].fill(0);
    tables[KEPT..KEPT + m].fill(0);
    flow.fill(0);
    pages::begin(net.shape.nodes, memory);
    pages::forget(net.shape.nodes, memory);
    weight
}

// The outcome, with work space lent.
pub fn solve_in(
    q: u64,
    net: &Net<'_>,
    indexes: &mut [u64],
    flow: &mut [i64],
    tables: &mut [u64],
    memory: &mut [u64],
    path: &mut [u64],
) -> Answer
    requires { Working net.now.shape q net.now.numbers.now indexes.old flow.old tables.old memory.old path.old }
    ensures { Solved (network_of net.now) q result flow.new (kept_in net.now.shape tables.new) }
{
    index_all(net, indexes);
    let m = net.shape.resources;
    let weight = prepare(
        q,
        net,
        &indexes[RESOURCE_CAPACITIES..RESOURCE_CAPACITIES + m],
        flow,
        tables,
        memory,
    );
    outcome(q, net, indexes, flow, tables, memory, path, weight)
}
