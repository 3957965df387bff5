// The run: iterations until some load is at the threshold, on the lent slices.
ghost use Rattle.std.specs.Prelude.{◌≡◌, length};
ghost use Rattle.packed.specs.Packed.{network_of};
ghost use Rattle.method.specs.Run.{run};
ghost use Rattle.step.specs.Progress.{state_in, begun, begun_with};
ghost use Rattle.run.specs.Runs.{Space, Starting};

use crate::iterations::iterate;
use packed::Net;
use step::Progress;

// Nothing drawn yet, the least fraction 1 over 0, and D of the first lengths.
fn begin(weight: u64) -> Progress
    ensures { result ≡ begun_with weight }
{
    Progress {
        total: 0,
        count: 0,
        bound: 1,
        alpha: 0,
        best: 0,
        weight,
        halved: false,
        ended: false,
    }
}

// Iterations until some load is at the threshold, from first lengths of this weight. There are at most m * T of them: the count falls short
// of that by one less each time.
pub fn run(
    q: u64,
    net: &Net<'_>,
    indexes: &[u64],
    flow: &mut [i64],
    tables: &mut [u64],
    memory: &mut [u64],
    path: &mut [u64],
    weight: u64,
) -> Progress
    requires room { Space net.now.shape q net.now.numbers.now indexes.now (length tables.old) (length path.old) }
    requires starting { Starting net.now.shape (network_of net.now) memory.old (state_in net.now.shape flow.old tables.old begun) weight }
    ensures { state_in net.now.shape flow.new tables.new result ≡ run (network_of net.now) q }
{
    let m = net.shape.resources;
    let threshold = length::threshold(m as u64, q);
    let mut p = begin(weight);
    loop {
        p = iterate(q, threshold, net, indexes, flow, tables, memory, path, p);
        if p.ended {
            return p;
        }
    }
}
