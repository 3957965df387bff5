// A call whose sizes have passed: its network read and checked, and the outcome delivered.
ghost use Rattle.packed.specs.Packed.{Packed};
ghost use Rattle.network.specs.Refusal.{host_number};
ghost use Rattle.decode.specs.Decode.{network_in};
ghost use Rattle.call.specs.Deliver.{slices_of, SameTables};
ghost use Rattle.call.specs.Serve.{Sizable, Judged};

use call::Tables;
use checks::items::check_items;
use decode::{Floor, decode};
use deliver::deliver;
use network::Verdict;
use packed::{NET_NUMBERS, Net, Shape};

// The call served, with a lent slice for the network.
fn serve_in(
    s: Shape,
    q: u64,
    floor: &Floor<'_>,
    net: &mut [u64],
    tables: &mut Tables<'_>,
    running: &mut [u8],
) -> Verdict
    requires sizes { Sizable s q floor.now.belts.now floor.now.pairs.now floor.now.limits.now (slices_of tables.old running.old) }
    requires places { Packed s net.old }
    ensures same { SameTables tables.old tables.new }
    ensures judged { Judged (network_in s.nodes floor.now.belts.now floor.now.pairs.now floor.now.limits.now) q (slices_of tables.old running.old) (slices_of tables.new running.new) (host_number result) }
{
    decode(s, floor, net);
    let net = Net {
        shape: s,
        numbers: net,
    };
    check_items(&net)?;
    deliver(q, &net, tables, running);
    Ok(())
}

// The call served.
pub fn serve(
    s: Shape,
    q: u64,
    floor: &Floor<'_>,
    tables: &mut Tables<'_>,
    running: &mut [u8],
) -> Verdict
    requires { Sizable s q floor.now.belts.now floor.now.pairs.now floor.now.limits.now (slices_of tables.old running.old) }
    ensures same { SameTables tables.old tables.new }
    ensures judged { Judged (network_in s.nodes floor.now.belts.now floor.now.pairs.now floor.now.limits.now) q (slices_of tables.old running.old) (slices_of tables.new running.new) (host_number result) }
{
    let mut net = [0u64; NET_NUMBERS];
    serve_in(s, q, floor, &mut net, tables, running)
}
