// Document 01's worked floors, some that it turns down, and some with a reversible belt or a limited station, solved through a slice of records. A line for each: what is
// lent, what the call returns, the flow table and the length table, in which every place held a 9. The file `stdout` has the page's figures.
#![tactic(auto)]

ghost use Rattle.std.specs.Prelude.{◌≤◌, take};
ghost use Rattle.records.specs.Records.{Recorded};

use network::Code;
use records::{Arc, Reply};
use std::fmt::Display;
use std::io;

// The first m arcs, lent.
fn lent(
    n: u64,
    q: u64,
    arcs: [Arc; 2],
    m: usize,
    pairs: &[u64],
    limits: &[u64],
    flow: &mut [i64],
    lengths: &mut [u64],
) -> Reply
    requires { m ≤ 2 }
    ensures { Recorded n q (take m arcs) pairs.now limits.now flow.old lengths.old flow.new lengths.new result }
{
    records::solve(n, q, &arcs[..m], pairs, limits, flow, lengths)
}

// Numbers, each behind a blank and in one write.
fn print_each<T: Display>(rt: &impl Print, s: &[T]) -> io::Result<()> {
    for x in s {
        print!(rt; " {x}")?;
    }
    Ok(())
}

// A column of numbers, after a bar.
fn print_all<T: Display>(rt: &impl Print, s: &[T]) -> io::Result<()> {
    rt.write_all(b" |")?;
    print_each(rt, s)
}

fn print_reply(rt: &impl Print, r: Reply) -> io::Result<()> {
    match r {
        Err(why) => {
            let Code { number, place } = Code::from(why);
            rt.write_all(b" refused")?;
            print_each(rt, &[number, place])
        }
        Ok(a) => print_each(
            rt,
            &[
                a.total, a.capacity, a.load, a.bound, a.alpha, a.count, a.best,
            ],
        ),
    }
}

fn run_within(
    rt: &impl Print,
    name: &[u8],
    n: u64,
    q: u64,
    arcs: [Arc; 2],
    m: usize,
    pairs: &[u64],
    limits: &[u64],
) -> io::Result<()>
    requires { m ≤ 2 }
{
    let mut flow = [9i64; 4];
    let mut lengths = [9u64; 2];
    let reply = lent(n, q, arcs, m, pairs, limits, &mut flow, &mut lengths);
    rt.write_all(name)?;
    print_reply(rt, reply)?;
    print_all(rt, &flow)?;
    print_all(rt, &lengths)?;
    rt.write_all(b"\n")
}

// No station has a limit.
fn run(
    rt: &impl Print,
    name: &[u8],
    n: u64,
    q: u64,
    arcs: [Arc; 2],
    m: usize,
    pairs: &[u64],
) -> io::Result<()>
    requires { m ≤ 2 }
{
    run_within(rt, name, n, q, arcs, m, pairs, &[0])
}

fn arc(tail: u64, head: u64, capacity: u64) -> Arc {
    Arc {
        tail,
        head,
        capacity,
        mark: 0,
    }
}

// Two belts of one capacity from station 1 to station 2, of which the first m are lent.
fn side_by_side(rt: &impl Print, name: &[u8], capacity: u64, m: usize, q: u64) -> io::Result<()>
    requires { m ≤ 2 }
{
    let a = arc(1, 2, capacity);
    run(rt, name, 2, q, [a, a], m, &[1, 2])
}

// "File and listing" and "Run by a program".
fn page(rt: &impl Print) -> io::Result<()> {
    side_by_side(rt, b"two belts of 1:", 1, 2, 4)?;
    side_by_side(rt, b"a belt of 5:", 5, 1, 4)?;
    run(
        rt,
        b"a chain, two pairs:",
        3,
        4,
        [arc(1, 2, 2), arc(2, 3, 3)],
        2,
        &[1, 3, 2, 3],
    )?;
    side_by_side(rt, b"a belt of 1000:", 1000, 1, 4)?;
    side_by_side(rt, b"a belt of 1001:", 1001, 1, 4)?;
    side_by_side(rt, b"two belts of 0:", 0, 2, 4)?;
    side_by_side(rt, b"q = 16:", 5, 1, 16)?;
    side_by_side(rt, b"q = 3:", 5, 1, 3)?;
    side_by_side(rt, b"q = 17:", 5, 1, 17)
}

// "Turned down", and an incomplete last pair, which is not read.
fn refusals(rt: &impl Print) -> io::Result<()> {
    let a = arc(1, 2, 5);
    run(rt, b"one station:", 1, 4, [a, a], 2, &[1, 2])?;
    run(rt, b"no belt:", 2, 4, [a, a], 0, &[1, 2])?;
    run(rt, b"no pair:", 2, 4, [a, a], 1, &[1])?;
    run(rt, b"short tables:", 2, 4, [a, a], 2, &[1, 2, 1, 2, 1, 2])?;
    run(rt, b"a loose belt:", 2, 4, [a, arc(2, 2, 0)], 2, &[1, 2])?;
    run(rt, b"a loose pair:", 2, 4, [a, a], 1, &[1, 2, 1, 3])?;
    run(rt, b"a lone number:", 2, 4, [a, a], 1, &[1, 2, 7])
}

// Request C-12: a belt of 5 from station 2 to station 1, with this mark, and a pair that goes from 1 to 2.
fn against(rt: &impl Print, name: &[u8], mark: u64) -> io::Result<()> {
    let a = Arc {
        tail: 2,
        head: 1,
        capacity: 5,
        mark,
    };
    run(rt, name, 2, 4, [a, a], 1, &[1, 2])
}

// Any mark but zero makes it reversible: it carries what "a belt of 5" does, the other way.
fn reversible(rt: &impl Print) -> io::Result<()> {
    against(rt, b"a reversible belt of 5:", 1)?;
    against(rt, b"by the greatest mark:", 0xffff_ffff_ffff_ffff)
}

// Request C-17: a belt of 5 from station 1 to station 2, which has this limit.
fn at_the_end(rt: &impl Print, name: &[u8], limit: u64) -> io::Result<()> {
    let a = arc(1, 2, 5);
    run_within(rt, name, 2, 4, [a, a], 1, &[1, 2], &[0, limit])
}

fn limited(rt: &impl Print) -> io::Result<()> {
    at_the_end(rt, b"a station of 3:", 3)?;
    at_the_end(rt, b"a station of 1001:", 1001)
}

fn main(rt: HostRuntime) -> io::Result<()> {
    page(&rt)?;
    refusals(&rt)?;
    reversible(&rt)?;
    limited(&rt)
}
