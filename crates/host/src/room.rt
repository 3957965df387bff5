// What is checked before an item is read: are the sizes within their bounds, have the lent tables room, is the office one of eight, and is its count full?
ghost use Rattle.std.specs.Prelude.{◌≡◌, ◌≤◌};
ghost use Rattle.bounds.specs.Bounds.{most_arcs, most_commodities, offices};
ghost use Rattle.network.specs.Verdict.{verdict};
ghost use Rattle.call.specs.Deliver.{slices_of};
ghost use Rattle.numbers.specs.Numbers.{count};
ghost use Rattle.call.specs.Host.{short, office_conditions};
ghost use Rattle.call.specs.Serve.{call_conditions};

use bounds::{ANSWER_NUMBERS, MOST_RUNNING, OFFICES};
use call::Tables;
use checks::sizes::{check_sizes, outside};
use network::{Refusal, Verdict};
use packed::Shape;

// A table is too small for what the call may write: one of its own, or one of those that every call has.
fn short(lacking: bool, k: usize, m: usize, r: usize, tables: &Tables<'_>, counts: &[u8]) -> bool
    requires { (k ≤ most_commodities) × (m ≤ most_arcs) }
    ensures { result ≡ short lacking k m r (slices_of tables.now counts.now) }
{
    if lacking {
        return true;
    }
    if numbers::count(tables.flow) < k * m {
        return true;
    }
    if numbers::count(tables.lengths) < r {
        return true;
    }
    if numbers::count(tables.answer) < ANSWER_NUMBERS {
        return true;
    }
    numbers::count(counts) < OFFICES
}

// 16 and 11. Of the counts only the office's own is read, once it is one of those in the table.
fn check_office(office: u64, counts: &[u8]) -> Verdict
    requires { offices ≤ count counts.now }
    ensures { result ≡ verdict (office_conditions office counts.now) }
{
    if outside(1, OFFICES as u64, office) {
        return Err(Refusal::Office);
    }
    let place = office as usize - 1;
    if MOST_RUNNING < numbers::read(counts, place) {
        return Err(Refusal::FullCount);
    }
    Ok(())
}

// 1 to 5, 11, 15 and 16.
pub fn check_call(
    lacking: bool,
    s: Shape,
    q: u64,
    office: u64,
    tables: &Tables<'_>,
    counts: &[u8],
) -> Verdict
    ensures { result ≡ verdict (call_conditions lacking s.nodes s.arcs s.resources s.commodities q office (slices_of tables.now counts.now)) }
{
    check_sizes(s.nodes, s.arcs, s.resources, s.commodities, q)?;
    if short(lacking, s.commodities, s.arcs, s.resources, tables, counts) {
        return Err(Refusal::ShortTable);
    }
    check_office(office, counts)
}
