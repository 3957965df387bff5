// The lengths of all resources: their start, their growth where a path uses them and their halving. Each hands back the
// bound's D of what it leaves, so that none is summed apart.
#![tactic(auto)]

ghost use Rattle.std.specs.Prelude.{◌≡◌, cond, map};
ghost use Rattle.length.specs.Length.{halving};
ghost use Rattle.tables.specs.Tables.{weight_of};
ghost use Rattle.lengths.specs.Calls.{Startable, Growing, Settling, Lengthening};
ghost use Rattle.lengths.specs.Results.{first_lengths, Weighed, Grew, Lengthened};

use length::Length;

// Every length at its resource's start; D of these.
pub fn start(capacities: &[u64], lengths: &mut [u64]) -> u64
    requires { Startable capacities.now lengths.old }
    ensures { Weighed (first_lengths capacities.now) capacities.now lengths.new result }
{
    let mut d = 0;
    for (e, l) in lengths.iter_mut().enumerate() {
        let capacity = capacities[e];
        let first = Length::start(capacity).value;
        *l = first;
        d += capacity * first;
    }
    d
}

// D of grown lengths, and whether some length is at the mark.
#[derive(Clone, Copy)]
pub struct Grown {
    pub weight: u64,
    pub marked: bool,
}

// The lengths of what the path uses grown by the draw g. Only they change: their growth carries D over from the weight
// before, and only they can have reached the mark.
fn grow(lengths: &mut [u64], capacities: &[u64], q: u64, g: u64, path: &[u64], weight: u64) -> Grown
    requires growing { Growing lengths.old capacities.now q g path.now }
    requires weight { weight ≡ weight_of capacities.now lengths.old }
    ensures { Grew lengths.old capacities.now q g path.now lengths.new result }
{
    let mut d = weight;
    let mut marked = false;
    for e in path {
        let e = *e as usize;
        let capacity = capacities[e];
        let old = lengths[e];
        let l = Length { value: old };
        let longer = l.growth(q, g, capacity);
        let new = longer.value;
        lengths[e] = new;
        d += capacity * (new - old);
        marked |= longer.marked();
    }
    Grown { weight: d, marked }
}

// Every length halved; D of what they are then.
fn halve(lengths: &mut [u64], capacities: &[u64]) -> u64
    requires { Settling capacities.now lengths.old }
    ensures { Weighed (map halving lengths.old) capacities.now lengths.new result }
{
    let mut d = 0;
    for (e, l) in lengths.iter_mut().enumerate() {
        let half = Length { value: *l }.halving().value;
        *l = half;
        d += capacities[e] * half;
    }
    d
}

// Every length halved if one has grown to the mark; D of what they are then.
fn settle(lengths: &mut [u64], capacities: &[u64], grown: Grown) -> u64
    requires settling { Settling capacities.now lengths.old }
    requires weight { grown.weight ≡ weight_of capacities.now lengths.old }
    ensures { Weighed (cond grown.marked (map halving lengths.old) lengths.old) capacities.now lengths.new result }
{
    if grown.marked {
        halve(lengths, capacities)
    } else {
        grown.weight
    }
}

// The lengths of what the path uses grown by the draw g, and all halved if one has grown to the mark: D of what they are
// then, and whether they were halved.
pub fn lengthen(
    lengths: &mut [u64],
    capacities: &[u64],
    q: u64,
    g: u64,
    path: &[u64],
    weight: u64,
) -> Grown
    requires { Lengthening lengths.old capacities.now q g path.now weight }
    ensures { Lengthened lengths.old capacities.now q g path.now lengths.new result }
{
    let grown = grow(lengths, capacities, q, g, path, weight);
    let d = settle(lengths, capacities, grown);
    Grown { weight: d, ..grown }
}
