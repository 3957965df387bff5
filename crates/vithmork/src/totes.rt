// The call for whole totes an hour. Request C-15.
ghost use Rattle.whole.specs.Whole.{Whole};

use call::Tables;
use checks::numbers::host_number;
use decode::Floor;

// Solves the floor as vithmork_solve does, and gives each pair's whole totes an hour and the remainder in the table totes.
#[unsafe(no_mangle)]
pub extern "C" fn vithmork_whole(
    n: u64,
    q: u64,
    office: u64,
    belts: &[u8],
    pairs: &[u8],
    limits: &[u8],
    flow: &mut [u8],
    lengths: &mut [u8],
    answer: &mut [u8],
    counts: &mut [u8],
    totes: &mut [u8],
) -> u64
    ensures { Whole n q office belts.now pairs.now limits.now
        (record { flow = flow.old; lengths = lengths.old; answer = answer.old; counts = counts.old })
        (record { flow = flow.new; lengths = lengths.new; answer = answer.new; counts = counts.new })
        totes.old totes.new result }
{
    let floor = Floor {
        belts,
        pairs,
        limits,
    };
    let mut tables = Tables {
        flow,
        lengths,
        answer,
    };
    let v = whole::solve(n, q, office, &floor, &mut tables, counts, totes);
    host_number(v)
}
