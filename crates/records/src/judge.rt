// A call whose sizes have passed and whose records have been copied: arcs, limits and commodities checked, and the network solved into the lent tables.
ghost use Rattle.std.specs.Prelude.{◌≡◌, Ok, take};
ghost use Rattle.network.specs.Verdict.{verdict, item_conditions};
ghost use Rattle.network.specs.Refusal.{Accepted};
ghost use Rattle.packed.specs.Packed.{part, net_in, limits_from, network_of};
ghost use Rattle.records.specs.Parts.{network_copied, half_of, Halving, Pairing, Limiting, Limited, Completing, Checking, Delivering, Passed};
ghost use Rattle.records.specs.Records.{Replied};

use crate::sizes::shape;
use checks::items::check_items;
use method::Answer;
use network::Verdict;
use packed::{KEPT, LIMITS, NET_NUMBERS, Net, SINKS, SOURCES, Shape, TABLE_NUMBERS};

// One number of each pair: the first of the two, or the second.
fn halve(pairs: &[u64], which: usize, to: &mut [u64])
    requires { Halving pairs.now which to.old }
    ensures { to.new ≡ half_of which pairs.now }
{
    for i in 0..to.len() {
        to[i] = pairs[2 * i + which];
    }
}

// The sources and the sinks of the pairs, into their columns.
fn put_pairs(s: Shape, pairs: &[u64], net: &mut [u64])
    requires { Pairing s pairs.now net.old }
    ensures { net_in s net.new ≡ network_copied s.nodes s.arcs net.old pairs.now (part limits_from s.limits net.old) }
{
    let k = s.commodities;
    halve(pairs, 0, &mut net[SOURCES..SOURCES + k]);
    halve(pairs, 1, &mut net[SINKS..SINKS + k]);
}

// The limits that are read, into theirs.
fn put_limits(s: Shape, limits: &[u64], net: &mut [u64])
    requires { Limiting s limits.now net.old }
    ensures { Limited s limits.now net.old net.new }
{
    let c = s.limits;
    net[LIMITS..LIMITS + c].copy_from_slice(&limits[..c]);
}

// Pairs and limits, beside the arcs.
fn complete(s: Shape, pairs: &[u64], limits: &[u64], net: &mut [u64])
    requires { Completing s pairs.now limits.now net.old }
    ensures { net_in s net.new ≡ network_copied s.nodes s.arcs net.old pairs.now (take s.limits limits.now) }
{
    put_limits(s, limits, net);
    put_pairs(s, pairs, net);
}

// 6, 7, 14 and 8 of a call whose sizes have passed: its arcs stand in their columns, and its pairs and limits are put beside them.
pub fn check_copy(
    n: u64,
    m: usize,
    arcs: [u64; NET_NUMBERS],
    pairs: &[u64],
    limits: &[u64],
) -> Verdict
    requires { Checking n m pairs.now }
    ensures { result ≡ verdict (item_conditions (network_copied n m arcs pairs.now (take n limits.now))) }
{
    let s = shape(n, m, pairs.len(), limits);
    let mut net = arcs;
    complete(s, pairs, limits, &mut net);
    let net = Net {
        shape: s,
        numbers: &net,
    };
    check_items(&net)
}

// An accepted network: the outcome takes the first places of both tables.
fn deliver_in(q: u64, net: &Net<'_>, flow: &mut [i64], lengths: &mut [u64]) -> Answer
    requires { Delivering net.now.shape q net.now.numbers.now flow.old lengths.old }
    ensures { Replied (network_of net.now) q Accepted flow.old lengths.old flow.new lengths.new (Ok result) }
{
    let r = net.shape.resources;
    let size = net.shape.commodities * net.shape.arcs;
    let mut tables = [0u64; TABLE_NUMBERS];
    let answer = solver::solve(q, net, &mut flow[..size], &mut tables);
    lengths[..r].copy_from_slice(&tables[KEPT..KEPT + r]);
    answer
}

// The outcome of a call that has passed.
pub fn deliver(
    n: u64,
    q: u64,
    m: usize,
    arcs: [u64; NET_NUMBERS],
    pairs: &[u64],
    limits: &[u64],
    flow: &mut [i64],
    lengths: &mut [u64],
) -> Answer
    requires { Passed n q m arcs pairs.now limits.now flow.old lengths.old }
    ensures { Replied (network_copied n m arcs pairs.now (take n limits.now)) q Accepted flow.old lengths.old flow.new lengths.new (Ok result) }
{
    let s = shape(n, m, pairs.len(), limits);
    let mut net = arcs;
    complete(s, pairs, limits, &mut net);
    let net = Net {
        shape: s,
        numbers: &net,
    };
    deliver_in(q, &net, flow, lengths)
}
