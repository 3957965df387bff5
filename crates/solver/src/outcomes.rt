// The outcome from the tables of the start: no answer where no commodity is joined, else that of the run.
ghost use Rattle.std.specs.Prelude.{◌≡◌, length};
ghost use Rattle.packed.specs.Packed.{loads_in, kept_in, network_of};
ghost use Rattle.run.specs.Runs.{Space};
ghost use Rattle.solver.specs.Prepared.{Cleared};
ghost use Rattle.solver.specs.Solved.{Answering, Solved, answer_of, no_answer};

use choice::RESOURCE_CAPACITIES;
use method::Answer;
use packed::{LENGTHS, LOADS, Net, Shape};
use run::runs;
use step::Progress;
use tables::loads;

// The answer: the fullest resource gives the scale.
fn answer(s: Shape, capacities: &[u64], tables: &[u64], p: Progress) -> Answer
    requires { Answering s capacities.now tables.now }
    ensures { result ≡ answer_of capacities.now (loads_in s tables.now) p }
{
    let m = s.resources;
    let loads = &tables[LOADS..LOADS + m];
    let b = loads::fullest(loads, capacities);
    Answer {
        total: p.total,
        capacity: capacities[b],
        load: loads[b],
        bound: p.bound,
        alpha: p.alpha,
        count: p.count,
        best: p.best,
    }
}

// No commodity is joined.
fn unjoined() -> Answer
    ensures { result ≡ no_answer }
{
    Answer {
        total: 0,
        capacity: 1,
        load: 1,
        bound: 0,
        alpha: 1,
        count: 0,
        best: 0,
    }
}

// The first choice, and the run where there is one. D of the first lengths is at hand.
pub fn outcome(
    q: u64,
    net: &Net<'_>,
    indexes: &[u64],
    flow: &mut [i64],
    tables: &mut [u64],
    memory: &mut [u64],
    path: &mut [u64],
    weight: u64,
) -> Answer
    requires room { Space net.now.shape q net.now.numbers.now indexes.now (length tables.old) (length path.old) }
    requires cleared { Cleared net.now.shape (network_of net.now) flow.old tables.old memory.old weight }
    ensures { Solved (network_of net.now) q result flow.new (kept_in net.now.shape tables.new) }
{
    let m = net.shape.resources;
    let first = choice::choose(net, indexes, &tables[LENGTHS..LENGTHS + m], memory, path);
    if first.is_none() {
        return unjoined();
    }
    let p = runs::run(q, net, indexes, flow, tables, memory, path, weight);
    answer(
        net.shape,
        &indexes[RESOURCE_CAPACITIES..RESOURCE_CAPACITIES + m],
        tables,
        p,
    )
}
