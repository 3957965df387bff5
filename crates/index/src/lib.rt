// The index of the arcs at each node, the arcs of one node side by side in ascending order: a search goes through those
// into a node, a walk through those out of it. A reversible arc is at both of its ends: here alone the code asks for
// marks. And the resources: which of them each node is, and their capacities. Here alone the code asks for limits.
#![tactic(auto)]

ghost use Rattle.std.specs.Prelude.{◌≡◌, ◌∷◌, ◌+◌, ◌≤◌, length, get_or};
ghost use Rattle.network.specs.Resources.{resource_capacities};
ghost use Rattle.packed.specs.Packed.{network_of};
ghost use Rattle.index.specs.Index.{Index, Stations, Into, Out};
ghost use Rattle.index.specs.Indexing.{side, sides, Indexable, Located, Roomy, Limiting, Columns, Indexing, Joins};
ghost use Rattle.index.specs.Indexing.{Seeing, Seen, Building, Putting, placed, AddingArc, Opening};

use bounds::{MOST_ARCS, MOST_NODES};
use packed::{CAPACITIES, HEADS, LIMITS, MARKS, Net, TAILS};

// First stands for each node, and one past the last, the place where its arcs begin; the arcs of the places stand from
// here on,
pub const ARCS: usize = MOST_NODES as usize + 2;

// and their other ends from here on. There are places for twice the most arcs.
pub const ENDS: usize = ARCS + 2 * MOST_ARCS;

// The resources of the nodes stand from here on, from node 0 on.
pub const PLACES: usize = ENDS + 2 * MOST_ARCS;

// How many numbers an index takes in all.
pub const INDEX_NUMBERS: usize = PLACES + MOST_NODES as usize + 1;

// Arc e with the other end w comes behind the last place of node v.
fn put(v: usize, e: usize, w: u64, ix: &mut [u64])
    requires { Putting v ix.old }
    ensures { ix.new ≡ placed v e w ix.old }
{
    let p = ix[v + 1] as usize;
    ix[ARCS + p] = e as u64;
    ix[ENDS + p] = w;
    ix[v + 1] = p as u64 + 1;
}

// The other end of arc e where it is at node v, by its end here or, if it is reversible, by its end there.
fn other(here: &[u64], there: &[u64], marks: &[u64], v: u64, e: usize) -> Option<u64>
    requires { Seeing (side here.now there.now marks.now) e }
    ensures { Seen (side here.now there.now marks.now) v e result }
{
    if here[e] == v {
        return Some(there[e]);
    }
    if marks[e] != 0 && there[e] == v {
        return Some(here[e]);
    }
    None
}

// Arc e is put there if it is at node v.
fn add(here: &[u64], there: &[u64], marks: &[u64], v: usize, e: usize, ix: &mut [u64])
    requires { AddingArc (side here.now there.now marks.now) v e ix.old }
    ensures { Building (side here.now there.now marks.now) v (e + 1) ix.new }
{
    if let Some(w) = other(here, there, marks, v as u64, e) {
        put(v, e, w, ix);
    }
}

// The arcs of the node after the last.
fn row(here: &[u64], there: &[u64], marks: &[u64], last: usize, ix: &mut [u64])
    requires { Opening (side here.now there.now marks.now) last ix.old }
    ensures { Building (side here.now there.now marks.now) (last + 1) (length here.now) ix.new }
{
    let v = last + 1;
    ix[v + 1] = ix[v];
    for e in 0..here.len() {
        add(here, there, marks, v, e, ix);
    }
}

// The index of the arcs by the ends that they have here; their other ends are there. No arc is at node 0.
fn index_by(n: u64, here: &[u64], there: &[u64], marks: &[u64], ix: &mut [u64])
    requires { Indexing n (side here.now there.now marks.now) (length ix.old) }
    ensures { Index (Joins (side here.now there.now marks.now)) n ix.new }
{
    ix[0] = 0;
    ix[1] = 0;
    for v in 0..n as usize {
        row(here, there, marks, v, ix);
    }
}

// What node v lets through; 0 if it has no limit.
fn limit(limits: &[u64], v: usize) -> u64
    ensures { result ≡ get_or (0 ∷ limits.now) v 0 }
{
    if v == 0 {
        0
    } else {
        limits.get(v - 1).copied().unwrap_or(0)
    }
}

// Which resource each node is: those that are limited are counted on behind the arcs, the others get a number past all
// resources.
fn place_nodes(net: &Net<'_>, ix: &mut [u64])
    requires { Indexable net.now.shape net.now.numbers.now (length ix.old) }
    ensures { Located (network_of net.now) ix.old ix.new }
{
    let limits = &net.numbers[LIMITS..LIMITS + net.shape.limits];
    let mut next = net.shape.arcs;
    for v in 0..=net.shape.nodes as usize {
        if limit(limits, v) != 0 {
            ix[PLACES + v] = next as u64;
            next += 1;
        } else {
            ix[PLACES + v] = net.shape.resources as u64;
        }
    }
}

// The index of the arcs by their ends in the column from here on, with their other ends in that from there on; behind
// it the resources of the nodes.
fn index_columns(here: usize, there: usize, net: &Net<'_>, ix: &mut [u64])
    requires indexable { Indexable net.now.shape net.now.numbers.now (length ix.old) }
    requires here { here + net.now.shape.arcs ≤ length net.now.numbers.now }
    requires there { there + net.now.shape.arcs ≤ length net.now.numbers.now }
    requires columns { Columns (sides here there net.now.shape net.now.numbers.now) }
    ensures arcs { Index (Joins (sides here there net.now.shape net.now.numbers.now)) net.now.shape.nodes ix.new }
    ensures places { Stations (network_of net.now) ix.new }
{
    let m = net.shape.arcs;
    let marks = &net.numbers[MARKS..MARKS + m];
    index_by(
        net.shape.nodes,
        &net.numbers[here..here + m],
        &net.numbers[there..there + m],
        marks,
        ix,
    );
    place_nodes(net, ix);
}

// The index of the arcs into each node.
pub fn index_into(net: &Net<'_>, ix: &mut [u64])
    requires { Indexable net.now.shape net.now.numbers.now (length ix.old) }
    ensures { Into (network_of net.now) ix.new }
{
    index_columns(HEADS, TAILS, net, ix);
}

// The index of the arcs out of each node.
pub fn index_out(net: &Net<'_>, ix: &mut [u64])
    requires { Indexable net.now.shape net.now.numbers.now (length ix.old) }
    ensures { Out (network_of net.now) ix.new }
{
    index_columns(TAILS, HEADS, net, ix);
}

// The limits that are set, from node to node, behind the capacities of the arcs.
fn append_limits(net: &Net<'_>, table: &mut [u64])
    requires { Limiting net.now.shape net.now.numbers.now table.old }
    ensures { table.new ≡ resource_capacities (network_of net.now) }
{
    let limits = &net.numbers[LIMITS..LIMITS + net.shape.limits];
    let mut end = net.shape.arcs;
    for v in 0..=net.shape.nodes as usize {
        let x = limit(limits, v);
        if x != 0 {
            table[end] = x;
            end += 1;
        }
    }
}

// The capacities of the resources.
pub fn resource_capacities(net: &Net<'_>, table: &mut [u64])
    requires { Roomy net.now.shape net.now.numbers.now (length table.old) }
    ensures { table.new ≡ resource_capacities (network_of net.now) }
{
    let m = net.shape.arcs;
    table[..m].copy_from_slice(&net.numbers[CAPACITIES..CAPACITIES + m]);
    append_limits(net, table);
}
