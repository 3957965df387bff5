// The network of a call, read out of its byte slices into one slice of numbers. Document 01, "The floor and its flow".
#![tactic(auto)]

ghost use Rattle.std.specs.Prelude.{◌≡◌, ◌≤◌};
ghost use Rattle.network.specs.Given.{given};
ghost use Rattle.numbers.specs.Numbers.{count, column};
ghost use Rattle.packed.specs.Packed.{net_in};
ghost use Rattle.decode.specs.Calls.{Shaped, OfPairs, PairsRead, OfBelts, BeltsRead, OfLimits, LimitsRead, Decoding};
ghost use Rattle.decode.specs.Decode.{network_in};

use packed::{CAPACITIES, HEADS, LIMITS, MARKS, SINKS, SOURCES, Shape, TAILS};

// What a call lends of its floor, in bytes.
#[derive(Clone, Copy)]
pub struct Floor<'a> {
    pub belts: &'a [u8],
    pub pairs: &'a [u8],
    pub limits: &'a [u8],
}

// How many of the first c numbers are not 0.
fn count_given(limits: &[u8], c: usize) -> usize
    requires { c ≤ count limits.now }
    ensures { result ≡ given (column limits.now 1 0 c) c }
{
    let mut r = 0;
    for i in 0..c {
        if numbers::read(limits, i) != 0 {
            r += 1;
        }
    }
    r
}

// The shape, by which the sizes are checked before anything is read into a slice.
pub fn shape(n: u64, floor: &Floor<'_>) -> Shape
    ensures { Shaped n floor.now.belts.now floor.now.pairs.now floor.now.limits.now result }
{
    let m = numbers::items(floor.belts, 4);
    let k = numbers::items(floor.pairs, 2);
    let all = numbers::count(floor.limits);
    let c = n.min(all as u64) as usize;
    let r = m + count_given(floor.limits, c);
    Shape {
        nodes: n,
        arcs: m,
        commodities: k,
        limits: c,
        resources: r,
    }
}

// The columns of the pairs, each to its place.
fn read_pairs(s: Shape, pairs: &[u8], net: &mut [u64])
    requires { OfPairs s pairs.now net.old }
    ensures { PairsRead s pairs.now net.old net.new }
{
    let k = s.commodities;
    numbers::read_column(pairs, 2, 0, &mut net[SOURCES..SOURCES + k]);
    numbers::read_column(pairs, 2, 1, &mut net[SINKS..SINKS + k]);
}

// The columns of the belts.
fn read_belts(s: Shape, belts: &[u8], net: &mut [u64])
    requires { OfBelts s belts.now net.old }
    ensures { BeltsRead s belts.now net.old net.new }
{
    let m = s.arcs;
    numbers::read_column(belts, 4, 0, &mut net[TAILS..TAILS + m]);
    numbers::read_column(belts, 4, 1, &mut net[HEADS..HEADS + m]);
    numbers::read_column(belts, 4, 2, &mut net[CAPACITIES..CAPACITIES + m]);
    numbers::read_column(belts, 4, 3, &mut net[MARKS..MARKS + m]);
}

// The limits.
fn read_limits(s: Shape, limits: &[u8], net: &mut [u64])
    requires { OfLimits s limits.now net.old }
    ensures { LimitsRead s limits.now net.old net.new }
{
    let c = s.limits;
    numbers::read_column(limits, 1, 0, &mut net[LIMITS..LIMITS + c]);
}

// The network.
pub fn decode(s: Shape, floor: &Floor<'_>, net: &mut [u64])
    requires { Decoding s floor.now.belts.now floor.now.pairs.now floor.now.limits.now net.old }
    ensures { net_in s net.new ≡ network_in s.nodes floor.now.belts.now floor.now.pairs.now floor.now.limits.now }
{
    read_pairs(s, floor.pairs, net);
    read_belts(s, floor.belts, net);
    read_limits(s, floor.limits, net);
}
