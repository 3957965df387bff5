// The list of a search: listed has a 1 for each node on it and a 0 for the others, and size of them are. n, the number of nodes, and size are taken for the
// contracts.
ghost use Rattle.std.specs.Prelude.{◌≤◌};
ghost use Rattle.paths.specs.Worklist.{Worklist, Met, TakenOut};
ghost use Rattle.paths.specs.Scan.{Taking};

use crate::ORDER;

// The node at this place of the order leaves the list.
pub fn take_out(n: u64, page: &[u64], at: usize, listed: &mut [u64], size: usize) -> u64
    requires { Taking n page.now listed.old size at }
    ensures { TakenOut n listed.old size result listed.new }
{
    let v = page[ORDER + at];
    listed[v as usize] = 0;
    v
}

// Node v comes onto the list where come says so, unless it is there. How many are on it now. The flag is written in any case, which is quicker than a jump
// over the store.
pub fn enlist(come: bool, n: u64, v: u64, listed: &mut [u64], size: usize) -> usize
    requires worklist { Worklist n listed.old size }
    requires node { (1 ≤ v) × (v ≤ n) }
    ensures { Met come n listed.old size v listed.new result }
{
    let at = v as usize;
    let was = listed[at];
    let flag = if come { 1 } else { was };
    listed[at] = flag;
    size + (flag - was) as usize
}
