// The order of the nodes before any search.
ghost use Rattle.std.specs.Prelude.{◌+◌, ◌≤◌, length};
ghost use Rattle.paths.specs.Order.{order_from, LinedUp};

use crate::ORDER;

// It is 1, 2, .., n.
pub fn line_up(n: u64, page: &mut [u64])
    requires { order_from + n ≤ length page.old }
    ensures { LinedUp n page.new }
{
    for p in 0..n as usize {
        page[ORDER + p] = p as u64 + 1;
    }
}
