// What every exported call that solves does, on byte slices: sizes and tables checked, then the call served with the office's own count. Document 01, "The floor and its flow".
#![tactic(auto)]

mod room;
mod serve;

ghost use Rattle.network.specs.Refusal.{host_number};
ghost use Rattle.call.specs.Deliver.{slices_of, SameTables};
ghost use Rattle.call.specs.Host.{Hosted};

use call::Tables;
use decode::{Floor, shape};
use network::Verdict;

// Solves the floor in the byte slices: the tables are written, or it is turned down and no byte changed; a caller in C gets the verdict's number. A call with tables
// of its own says whether one of them is too small (lacking), since that is refused here, in its place, and writes them once it is accepted.
pub fn solve(
    n: u64,
    q: u64,
    office: u64,
    floor: &Floor<'_>,
    tables: &mut Tables<'_>,
    counts: &mut [u8],
    lacking: bool,
) -> Verdict
    ensures same { SameTables tables.old tables.new }
    ensures hosted { Hosted lacking n q office floor.now.belts.now floor.now.pairs.now floor.now.limits.now (slices_of tables.old counts.old) (slices_of tables.new counts.new) (host_number result) }
{
    let s = shape(n, floor);
    room::check_call(lacking, s, q, office, tables, counts)?;
    let own = 8 * (office as usize - 1);
    serve::serve(s, q, floor, tables, &mut counts[own..own + 8])
}
