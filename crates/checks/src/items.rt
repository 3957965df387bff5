// The arcs, limits and commodities of a network: 6 to 8 of document 01's table, "Turned down", in its order, and request C-17's 14 before 8.
ghost use Rattle.std.specs.Prelude.{◌≡◌, length, get_or};
ghost use Rattle.arith.specs.Lists.{up_to, flat};
ghost use Rattle.network.specs.Parts.{of_arcs, of_limits, of_commodities};
ghost use Rattle.network.specs.Verdict.{verdict, loose, arc_conditions, limit_conditions, commodity_conditions, item_conditions};
ghost use Rattle.packed.specs.Packed.{Packed, network_of};

use crate::sizes::outside;
use bounds::MOST_CAPACITY;
use network::{Refusal, Verdict};
use packed::{CAPACITIES, HEADS, LIMITS, Net, SINKS, SOURCES, TAILS};

// The number at i, 0 past the end.
fn at(s: &[u64], i: usize) -> u64
    ensures { result ≡ get_or s.now i 0 }
{
    s.get(i).copied().unwrap_or(0)
}

// One end of the two is no node, or they are equal.
fn loose(n: u64, a: u64, b: u64) -> bool
    ensures { result ≡ loose n a b }
{
    outside(1, n, a) || outside(1, n, b) || a == b
}

// 6 and 7: the arcs in turn, 6 before 7. The search ends at the first faulty arc and yields its refusal, with its number
// from 1 as the place.
// Kept: document 01, "Forms for specific places", asks for a loop whose break yields the refusal, here and below.
pub fn check_arcs(n: u64, tails: &[u64], heads: &[u64], capacities: &[u64]) -> Verdict
    ensures { result ≡ verdict (flat (arc_conditions (of_arcs n tails.now heads.now capacities.now)) (up_to (length tails.now))) }
{
    let mut e = 0;
    loop {
        if e >= tails.len() {
            break Ok(());
        }
        let place = e as u64 + 1;
        if loose(n, at(tails, e), at(heads, e)) {
            break Err(Refusal::LooseArc(place));
        }
        if outside(1, MOST_CAPACITY, at(capacities, e)) {
            break Err(Refusal::Capacity(place));
        }
        e += 1;
    }
}

// 14: the limits in turn, each at its node's number.
pub fn check_limits(limits: &[u64]) -> Verdict
    ensures { result ≡ verdict (flat (limit_conditions (of_limits limits.now)) (up_to (length limits.now))) }
{
    let mut v = 0;
    loop {
        if v >= limits.len() {
            break Ok(());
        }
        let place = v as u64 + 1;
        if MOST_CAPACITY < at(limits, v) {
            break Err(Refusal::Limit(place));
        }
        v += 1;
    }
}

// 8: the commodities in turn.
pub fn check_commodities(n: u64, sources: &[u64], sinks: &[u64]) -> Verdict
    ensures { result ≡ verdict (flat (commodity_conditions (of_commodities n sources.now sinks.now)) (up_to (length sources.now))) }
{
    let mut i = 0;
    loop {
        if i >= sources.len() {
            break Ok(());
        }
        let place = i as u64 + 1;
        if loose(n, at(sources, i), at(sinks, i)) {
            break Err(Refusal::LooseCommodity(place));
        }
        i += 1;
    }
}

// 6, 7, 14 and 8 of a network whose sizes have passed.
pub fn check_items(net: &Net<'_>) -> Verdict
    requires { Packed net.now.shape net.now.numbers.now }
    ensures { result ≡ verdict (item_conditions (network_of net.now)) }
{
    let m = net.shape.arcs;
    let k = net.shape.commodities;
    let given = net.shape.limits;
    check_arcs(
        net.shape.nodes,
        &net.numbers[TAILS..TAILS + m],
        &net.numbers[HEADS..HEADS + m],
        &net.numbers[CAPACITIES..CAPACITIES + m],
    )?;
    check_limits(&net.numbers[LIMITS..LIMITS + given])?;
    check_commodities(
        net.shape.nodes,
        &net.numbers[SOURCES..SOURCES + k],
        &net.numbers[SINKS..SINKS + k],
    )
}
