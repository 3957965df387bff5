// The rows of an accepted network: it is solved, and its outcome written.
ghost use Rattle.std.specs.Prelude.{◌≡◌, length};
ghost use Rattle.network.specs.Refusal.{Accepted};
ghost use Rattle.packed.specs.Packed.{network_of};
ghost use Rattle.rows.specs.Put.{Puts};
ghost use Rattle.report.specs.Shown.{belts_of, Belted, Ready, Showing, Shown};

use bounds::{LEAST_PRECISION, MOST_ARCS};
use packed::{HEADS, Net, TABLE_NUMBERS, TAILS};
use rows::Rows;

// The rows of the arcs in order: the size of each amount times a, over y.
fn put_belts(rows: &mut Rows, tails: &[u64], heads: &[u64], flow: &[i64], a: u64, y: u64)
    requires { Belted tails.now heads.now flow.now a rows.old.at (length rows.old.out.now) }
    ensures same_table { rows.new.out.ghost_name ≡ rows.old.out.ghost_name }
    ensures rows { Puts (belts_of tails.now heads.now flow.now a y) rows.old rows.new }
{
    // Kept: arc e has a place in each of the three tables, and two zips are no plainer.
    for e in 0..tails.len() {
        let load = signed::size(flow[e]);
        rows.put_belt(tails[e], heads[e], load * a, y);
    }
}

// The outcome solved in lent work space, and written. With one commodity the loads are the sizes of its amounts.
fn show_in(net: &Net<'_>, flow: &mut [i64], tables: &mut [u64], rows: &mut Rows)
    requires { Showing net.now.shape net.now.numbers.now flow.old tables.old rows.old.at (length rows.old.out.now) }
    ensures same_table { rows.new.out.ghost_name ≡ rows.old.out.ghost_name }
    ensures shown { Shown (network_of net.now) Accepted rows.old.out.now rows.old.at rows.new.out.now rows.new.at }
{
    let a = solver::solve(LEAST_PRECISION, net, flow, tables);
    rows.put_answer(a);
    let tails = &net.numbers[TAILS..TAILS + net.shape.arcs];
    let heads = &net.numbers[HEADS..HEADS + net.shape.arcs];
    put_belts(rows, tails, heads, flow, a.capacity, a.load);
}

// The outcome solved and written.
pub fn show(net: &Net<'_>, rows: &mut Rows)
    requires { Ready net.now.shape net.now.numbers.now rows.old.at (length rows.old.out.now) }
    ensures same_table { rows.new.out.ghost_name ≡ rows.old.out.ghost_name }
    ensures shown { Shown (network_of net.now) Accepted rows.old.out.now rows.old.at rows.new.out.now rows.new.at }
{
    let mut flow = [0i64; MOST_ARCS];
    let mut tables = [0u64; TABLE_NUMBERS];
    show_in(net, &mut flow[..net.shape.arcs], &mut tables, rows);
}
