// An accepted call: the outcome written into the lent tables.
#![tactic(auto)]

ghost use Rattle.std.specs.Prelude.{◌≡◌, ◌+◌, ◌*◌, ◌≤◌, ◌<◌, ◌^◌};
ghost use Rattle.bounds.specs.Bounds.{answer_numbers};
ghost use Rattle.numbers.specs.Numbers.{count, written};
ghost use Rattle.method.specs.Answer.{numbers_of};
ghost use Rattle.packed.specs.Packed.{Lent, network_of};
ghost use Rattle.solver.specs.Solved.{Solving};
ghost use Rattle.call.specs.Deliver.{slices_of, SameTables, Room, Open, TablesWritten, Delivered};
ghost use Rattle.call.specs.Host.{count_of, raised};

use bounds::{MOST_ARCS, MOST_COMMODITIES};
use call::Tables;
use method::Answer;
use packed::{KEPT, Net, TABLE_NUMBERS};

// The seven numbers of the answer.
fn put_answer(a: Answer, answer: &mut [u8])
    requires { answer_numbers ≤ count answer.old }
    ensures { answer.new ≡ written answer.old (numbers_of a) }
{
    let seven = [
        a.total, a.capacity, a.load, a.bound, a.alpha, a.count, a.best,
    ];
    numbers::write_all(answer, &seven);
}

// The office's running count, lent by itself, raised by the iterations.
fn raise_count(iterations: u64, running: &mut [u8])
    requires { (1 ≤ count running.old) × (count_of 1 running.old + iterations < 2 ^ 64) }
    ensures { running.new ≡ raised 1 iterations running.old }
{
    let sum = numbers::read(running, 0) + iterations;
    numbers::write(running, 0, sum);
}

// The outcome solved in lent work space of its size, and its two tables written.
fn write_tables_in(
    q: u64,
    net: &Net<'_>,
    flows: &mut [i64],
    tables: &mut [u64],
    flow: &mut [u8],
    lengths: &mut [u8],
) -> Answer
    requires solving { Solving net.now.shape q net.now.numbers.now flows.old tables.old }
    requires room { Room net.now.shape.commodities net.now.shape.arcs net.now.shape.resources flow.old lengths.old }
    ensures { TablesWritten (network_of net.now) q result flow.old lengths.old flow.new lengths.new }
{
    let r = net.shape.resources;
    let a = solver::solve(q, net, flows, tables);
    numbers::write_all(flow, flows);
    numbers::write_all(lengths, &tables[KEPT..KEPT + r]);
    a
}

// The outcome solved, and its two tables written.
fn write_tables(q: u64, net: &Net<'_>, flow: &mut [u8], lengths: &mut [u8]) -> Answer
    requires lent { Lent net.now.shape q net.now.numbers.now }
    requires room { Room net.now.shape.commodities net.now.shape.arcs net.now.shape.resources flow.old lengths.old }
    ensures { TablesWritten (network_of net.now) q result flow.old lengths.old flow.new lengths.new }
{
    let size = net.shape.commodities * net.shape.arcs;
    let mut flows = [0i64; MOST_COMMODITIES * MOST_ARCS];
    let mut tables = [0u64; TABLE_NUMBERS];
    write_tables_in(q, net, &mut flows[..size], &mut tables, flow, lengths)
}

// The outcome solved and written.
pub fn deliver(q: u64, net: &Net<'_>, tables: &mut Tables<'_>, running: &mut [u8])
    requires lent { Lent net.now.shape q net.now.numbers.now }
    requires room { Open net.now.shape.commodities net.now.shape.arcs net.now.shape.resources (slices_of tables.old running.old) }
    ensures delivered { Delivered (network_of net.now) q (slices_of tables.old running.old) (slices_of tables.new running.new) }
    ensures same { SameTables tables.old tables.new }
{
    let a = write_tables(q, net, tables.flow, tables.lengths);
    put_answer(a, tables.answer);
    raise_count(a.count, running);
}
