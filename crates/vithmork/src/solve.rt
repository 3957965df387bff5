// The call that solves.
ghost use Rattle.std.specs.Prelude.{false};
ghost use Rattle.call.specs.Host.{Hosted};

use call::Tables;
use checks::numbers::host_number;
use decode::Floor;

// Solves the floor in the byte slices: 0 and the tables written, or a refusal's number * 1,000 + its place and no byte changed.
#[unsafe(no_mangle)]
pub extern "C" fn vithmork_solve(
    n: u64,
    q: u64,
    office: u64,
    belts: &[u8],
    pairs: &[u8],
    limits: &[u8],
    flow: &mut [u8],
    lengths: &mut [u8],
    answer: &mut [u8],
    counts: &mut [u8],
) -> u64
    ensures { Hosted false n q office belts.now pairs.now limits.now
        (record { flow = flow.old; lengths = lengths.old; answer = answer.old; counts = counts.old })
        (record { flow = flow.new; lengths = lengths.new; answer = answer.new; counts = counts.new })
        result }
{
    let floor = Floor {
        belts,
        pairs,
        limits,
    };
    let mut tables = Tables {
        flow,
        lengths,
        answer,
    };
    let v = host::solve(n, q, office, &floor, &mut tables, counts, false);
    host_number(v)
}
