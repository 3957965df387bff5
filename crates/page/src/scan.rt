// Which node a search looks at next: the next one in the order that is on the list.
ghost use Rattle.paths.specs.Scan.{Scanning, Scanned};

use crate::ORDER;

// The first place, beginning with the given one, whose node is on the list.
pub fn scan(n: u64, page: &[u64], listed: &[u64], from: usize) -> Option<usize>
    requires { Scanning n page.now listed.now }
    ensures { Scanned n page.now listed.now from result }
{
    for p in from..n as usize {
        if listed[page[ORDER + p] as usize] != 0 {
            return Some(p);
        }
    }
    None
}
