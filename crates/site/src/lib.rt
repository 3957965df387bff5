// The call for a site, on byte slices: its floors solved one after the other, each by the call for one floor on its own parts of the slices. Request C-14.
#![tactic(auto)]

mod list;
mod parts;

ghost use Rattle.std.specs.Prelude.{false, ◌<◌};
ghost use Rattle.bounds.specs.Sites.{floor_numbers};
ghost use Rattle.network.specs.Refusal.{host_number};
ghost use Rattle.numbers.specs.Numbers.{items};
ghost use Rattle.call.specs.Deliver.{slices};
ghost use Rattle.call.specs.Host.{Hosted};
ghost use Rattle.site.specs.Site.{Sited};
ghost use Rattle.site.specs.Turns.{site, Listed, FloorServed, FloorsServed};

use crate::parts::of_floor;
use bounds::FLOOR_NUMBERS;
use call::Tables;
use checks::numbers::host_number;
use decode::Floor;
use network::Verdict;

// The call for one floor, on its own parts of the tables.
fn solve_alone(
    n: u64,
    q: u64,
    office: u64,
    floor: &Floor<'_>,
    flow: &mut [u8],
    lengths: &mut [u8],
    answer: &mut [u8],
    counts: &mut [u8],
) -> Verdict
    ensures { Hosted false n q office floor.now.belts.now floor.now.pairs.now floor.now.limits.now (slices flow.old lengths.old answer.old counts.old) (slices flow.new lengths.new answer.new counts.new) (host_number result) }
{
    let mut tables = Tables {
        flow,
        lengths,
        answer,
    };
    host::solve(n, q, office, floor, &mut tables, counts, false)
}

// Floor i's own call on its parts, and before its answer what that returned, refused or not.
fn solve_floor(
    i: usize,
    office: u64,
    floors: &[u8],
    floor: &Floor<'_>,
    flow: &mut [u8],
    lengths: &mut [u8],
    answers: &mut [u8],
    counts: &mut [u8],
)
    requires { (i < items floor_numbers floors.now) × Listed floors.now answers.old }
    ensures { FloorServed (site office floors.now floor.now.belts.now floor.now.pairs.now floor.now.limits.now) i (slices flow.old lengths.old answers.old counts.old) (slices flow.new lengths.new answers.new counts.new) }
{
    let p = of_floor(floors, i, floor, flow, lengths);
    let belts_from = p.belts.from;
    let belts_to = belts_from + p.belts.size;
    let pairs_from = p.pairs.from;
    let pairs_to = pairs_from + p.pairs.size;
    let limits_from = p.limits.from;
    let limits_to = limits_from + p.limits.size;
    let flow_from = p.flow.from;
    let flow_to = flow_from + p.flow.size;
    let lengths_from = p.lengths.from;
    let lengths_to = lengths_from + p.lengths.size;
    let n = numbers::read(floors, FLOOR_NUMBERS * i);
    let q = numbers::read(floors, FLOOR_NUMBERS * i + 1);
    let answer = 64 * i + 8;
    let own = Floor {
        belts: &floor.belts[belts_from..belts_to],
        pairs: &floor.pairs[pairs_from..pairs_to],
        limits: &floor.limits[limits_from..limits_to],
    };
    let returned = solve_alone(
        n,
        q,
        office,
        &own,
        &mut flow[flow_from..flow_to],
        &mut lengths[lengths_from..lengths_to],
        &mut answers[answer..answer + 56],
        counts,
    );
    numbers::write(answers, 8 * i, host_number(returned));
}

// All floors in their order. What one is refused for concerns no other.
fn solve_floors(
    office: u64,
    floors: &[u8],
    floor: &Floor<'_>,
    flow: &mut [u8],
    lengths: &mut [u8],
    answers: &mut [u8],
    counts: &mut [u8],
)
    requires { Listed floors.now answers.old }
    ensures { FloorsServed (site office floors.now floor.now.belts.now floor.now.pairs.now floor.now.limits.now) (items floor_numbers floors.now) (slices flow.old lengths.old answers.old counts.old) (slices flow.new lengths.new answers.new counts.new) }
{
    let k = numbers::items(floors, FLOOR_NUMBERS);
    for i in 0..k {
        solve_floor(i, office, floors, floor, flow, lengths, answers, counts);
    }
}

// Solves the site's floors in the byte slices, with the number of each floor's own verdict at the head of its eight numbers in answers; or the call is
// turned down and no byte changed.
pub fn solve(
    office: u64,
    floors: &[u8],
    floor: &Floor<'_>,
    flow: &mut [u8],
    lengths: &mut [u8],
    answers: &mut [u8],
    counts: &mut [u8],
) -> Verdict
    ensures { Sited (site office floors.now floor.now.belts.now floor.now.pairs.now floor.now.limits.now) (slices flow.old lengths.old answers.old counts.old) (slices flow.new lengths.new answers.new counts.new) (host_number result) }
{
    list::check_list(floors, answers)?;
    solve_floors(office, floors, floor, flow, lengths, answers, counts);
    Ok(())
}
