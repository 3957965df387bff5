// The draw of an iteration, and the flow after it.
ghost use Rattle.std.specs.Prelude.{◌≡◌, ◌*◌, ◌≤◌, length};
ghost use Rattle.network.specs.Network.{arcs, source};
ghost use Rattle.network.specs.Path.{beyond};
ghost use Rattle.packed.specs.Packed.{Packed, network_of};
ghost use Rattle.method.specs.Iteration.{draw, crossed, pushed};
ghost use Rattle.tables.specs.Tables.{Under};
ghost use Rattle.tables.specs.Calls.{Crossing, Pushing};

use packed::{HEADS, Net, SOURCES, TAILS};

// The least capacity of what the path uses.
pub fn draw(capacities: &[u64], path: &[u64]) -> u64
    requires { (1 ≤ length path.now) × Under (length capacities.now) path.now }
    ensures { result ≡ draw capacities.now path.now }
{
    path.iter().map(|e| capacities[*e as usize]).min().unwrap()
}

// The draw g over arc e taken at node v, in the row of a flow that begins at base: forward from its tail, back from its
// head. Its other end.
fn cross(flow: &mut [i64], net: &Net<'_>, base: usize, g: u64, v: u64, e: usize) -> u64
    requires { Crossing net.now.shape net.now.numbers.now base g e flow.old }
    ensures { (flow.new ≡ crossed (network_of net.now) base g v e flow.old) × (result ≡ beyond (network_of net.now) v e) }
{
    let x = flow[base + e];
    if net.numbers[TAILS + e] == v {
        flow[base + e] = signed::more(x, g);
        net.numbers[HEADS + e]
    } else {
        flow[base + e] = signed::less(x, g);
        net.numbers[TAILS + e]
    }
}

// The draw g along the path of a commodity, in its row of the flow.
pub fn push(flow: &mut [i64], net: &Net<'_>, commodity: usize, path: &[u64], g: u64)
    requires packed { Packed net.now.shape net.now.numbers.now }
    requires pushing { Pushing (network_of net.now) commodity path.now g flow.old }
    ensures { flow.new ≡ pushed (network_of net.now) (commodity * arcs (network_of net.now)) g (source (network_of net.now) commodity) path.now flow.old }
{
    let base = commodity * net.shape.arcs;
    let mut v = net.numbers[SOURCES + commodity];
    for e in path {
        v = cross(flow, net, base, g, v, *e as usize);
    }
}
