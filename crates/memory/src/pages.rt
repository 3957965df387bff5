// What is remembered, as a run begins and after a halving: bounds and distances are forgotten then, since zeros are feasible whatever the lengths. The orders
// are kept, which serve by any lengths.
ghost use Rattle.std.specs.Prelude.{◌≡◌, ◌≤◌, ◌<◌, length};
ghost use Rattle.bounds.specs.Bounds.{most_nodes};
ghost use Rattle.memory.specs.Forgotten.{cleared, Begun, PagesCleared, Forgotten};
ghost use Rattle.memory.specs.Memory.{memory_numbers};

use crate::{LEAST, PAGES};
use page::PAGE_NUMBERS;
use page::order::line_up;

// The order is 1, 2, .., n on the page of every node, before the first choice of a run.
pub fn begin(n: u64, memory: &mut [u64])
    requires { (n ≤ most_nodes) × (memory_numbers ≤ length memory.old) }
    ensures { Begun n memory.new }
{
    for t in 0..=n as usize {
        let at = PAGES + PAGE_NUMBERS * t;
        line_up(n, &mut memory[at..at + PAGE_NUMBERS]);
    }
}

// The distances on a page become 0.
fn clear(n: u64, page: &mut [u64])
    requires { n < length page.old }
    ensures { page.new ≡ cleared n page.old }
{
    page[..=n as usize].fill(0);
}

// The distances on the page of every node do.
fn clear_pages(n: u64, memory: &mut [u64])
    requires { (n ≤ most_nodes) × (memory_numbers ≤ length memory.old) }
    ensures { PagesCleared n memory.old memory.new }
{
    for t in 0..=n as usize {
        let at = PAGES + PAGE_NUMBERS * t;
        clear(n, &mut memory[at..at + PAGE_NUMBERS]);
    }
}

// Bounds, the commodity of the least of them and distances become 0. The orders stay.
pub fn forget(n: u64, memory: &mut [u64])
    requires { (n ≤ most_nodes) × (memory_numbers ≤ length memory.old) }
    ensures { Forgotten n memory.old memory.new }
{
    memory[..=LEAST].fill(0);
    clear_pages(n, memory);
}
