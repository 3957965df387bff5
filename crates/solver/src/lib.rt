// The solver: the outcome of the method on lent slices.
#![tactic(auto)]

mod outcomes;
mod start;

ghost use Rattle.packed.specs.Packed.{kept_in, network_of};
ghost use Rattle.solver.specs.Solved.{Solving, Solved};

use crate::start::solve_in;
use choice::{INDEXES_NUMBERS, PATH_NUMBERS};
use memory::MEMORY_NUMBERS;
use method::Answer;
use packed::Net;

// The outcome of an accepted network: its flow table, and among the tables of the resources the kept lengths.
pub fn solve(q: u64, net: &Net<'_>, flow: &mut [i64], tables: &mut [u64]) -> Answer
    requires { Solving net.now.shape q net.now.numbers.now flow.old tables.old }
    ensures { Solved (network_of net.now) q result flow.new (kept_in net.now.shape tables.new) }
{
    let mut indexes = [0u64; INDEXES_NUMBERS];
    let mut memory = [0u64; MEMORY_NUMBERS];
    let mut path = [0u64; PATH_NUMBERS];
    solve_in(q, net, &mut indexes, flow, tables, &mut memory, &mut path)
}
