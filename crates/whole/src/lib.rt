// The call for whole totes an hour, on byte slices: solved as every call is, then two numbers for each pair out of what that left. Request C-15.
#![tactic(auto)]

mod sent;

ghost use Rattle.std.specs.Prelude.{◌≡◌, ◌+◌, ◌*◌, ◌/◌, ◌%◌, ◌<◌};
ghost use Rattle.network.specs.Refusal.{host_number};
ghost use Rattle.numbers.specs.Numbers.{count, items, number_at, written, put_at};
ghost use Rattle.call.specs.Deliver.{slices_of, SameTables};
ghost use Rattle.whole.specs.Read.{sent_in, Readable};
ghost use Rattle.whole.specs.Whole.{parted, Whole};

use call::Tables;
use decode::Floor;
use network::Verdict;

// Pair i's two numbers: as many whole totes as there are loads in its scaled amount, and what is left, so that nothing is lost between the two.
fn put_pair(totes: &mut [u8], i: usize, scaled: u64, load: u64)
    requires { (2 * i + 1 < count totes.old) × (0 < load) }
    ensures { totes.new ≡ put_at (put_at totes.old (2 * i) (scaled / load)) (2 * i + 1) (scaled % load) }
{
    numbers::write(totes, 2 * i, scaled / load);
    numbers::write(totes, 2 * i + 1, scaled % load);
}

// Each pair's two numbers, from the tables of an accepted call: what leaves its source is all that it carries, since nothing of it enters there.
fn put_totes(floor: &Floor<'_>, tables: &Tables<'_>, totes: &mut [u8])
    requires { Readable floor.now.belts.now floor.now.pairs.now tables.now.flow.now tables.now.answer.now totes.old }
    ensures { totes.new ≡ written totes.old (parted (number_at tables.now.answer.now 1) (number_at tables.now.answer.now 2) (sent_in floor.now.belts.now floor.now.pairs.now tables.now.flow.now) (items 2 floor.now.pairs.now)) }
{
    let m = numbers::items(floor.belts, 4);
    let k = numbers::items(floor.pairs, 2);
    let capacity = numbers::read(tables.answer, 1);
    let load = numbers::read(tables.answer, 2);
    for i in 0..k {
        let source = numbers::read(floor.pairs, 2 * i);
        let scaled = sent::leaves(floor.belts, tables.flow, i * m, source) * capacity;
        put_pair(totes, i, scaled, load);
    }
}

// Solves the floor in the byte slices, and gives each pair's whole totes an hour and the remainder: the tables are written, or the call is turned
// down and no byte changed.
pub fn solve(
    n: u64,
    q: u64,
    office: u64,
    floor: &Floor<'_>,
    tables: &mut Tables<'_>,
    counts: &mut [u8],
    totes: &mut [u8],
) -> Verdict
    ensures same { SameTables tables.old tables.new }
    ensures whole { Whole n q office floor.now.belts.now floor.now.pairs.now floor.now.limits.now (slices_of tables.old counts.old) (slices_of tables.new counts.new) totes.old totes.new (host_number result) }
{
    let lacking = numbers::count(totes) < 2 * numbers::items(floor.pairs, 2);
    host::solve(n, q, office, floor, tables, counts, lacking)?;
    put_totes(floor, tables, totes);
    Ok(())
}
