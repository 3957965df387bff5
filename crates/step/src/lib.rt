// One step of the run on the lent tables: what an iteration does once its path is chosen.
#![tactic(auto)]

ghost use Rattle.std.specs.Prelude.{◌≡◌, ◌+◌, ◌<◌, ◌^◌};
ghost use Rattle.packed.specs.Packed.{network_of};
ghost use Rattle.step.specs.Progress.{state_in, counted};
ghost use Rattle.step.specs.Steps.{chosen_in, Steppable, Stepped};

use lengths::Grown;
use method::Selected;
use packed::{KEPT, LENGTHS, LOADS, Net};
use tables::{draws, loads};

// The drawn total, the count of iterations, and D, alpha and number of the iteration of the least D / alpha so far.
// Beside these numbers of the method's state, what would else be read off whole tables: D of the present lengths, whether
// the last iteration halved them, and whether some load is at the threshold.
#[derive(Clone, Copy)]
pub struct Progress {
    pub total: u64,
    pub count: u64,
    pub bound: u64,
    pub alpha: u64,
    pub best: u64,
    pub weight: u64,
    pub halved: bool,
    pub ended: bool,
}

impl Progress {
    // One more iteration, with draw g and fraction D / alpha, that left lengths grown so.
    fn counted(self, g: u64, better: bool, alpha: u64, grown: Grown, ended: bool) -> Progress
        requires { (self.total + g < 2 ^ 64) × (self.count + 1 < 2 ^ 64) }
        ensures { result ≡ counted self g better alpha grown.weight grown.marked ended }
    {
        let next = Progress {
            total: self.total + g,
            count: self.count + 1,
            weight: grown.weight,
            halved: grown.marked,
            ended,
            ..self
        };
        if better {
            Progress {
                bound: self.weight,
                alpha,
                best: next.count,
                ..next
            }
        } else {
            next
        }
    }
}

// The iteration that draws along the path that was selected. What it uses stands in path, its arcs
// first, and capacities has those of the resources. Only what the path uses is looked at, unless the
// lengths are kept or halved.
pub fn step(
    q: u64,
    threshold: u64,
    net: &Net<'_>,
    capacities: &[u64],
    c: Selected,
    path: &[u64],
    flow: &mut [i64],
    tables: &mut [u64],
    p: Progress,
) -> Progress
    requires { Steppable net.now.shape q threshold c net.now.numbers.now capacities.now path.now flow.old tables.old p }
    ensures { Stepped (network_of net.now) q threshold (chosen_in c path.now) (state_in net.now.shape flow.old tables.old p) (state_in net.now.shape flow.new tables.new result) result }
{
    let m = net.shape.resources;
    let g = draws::draw(capacities, path);
    let better = arith::less_product(p.weight, p.alpha, p.bound, c.alpha);
    if better {
        loads::copy_within(tables, LENGTHS, KEPT, m);
    }
    draws::push(flow, net, c.commodity, &path[..c.arcs], g);
    let ended = loads::load(
        &mut tables[LOADS..LOADS + m],
        capacities,
        threshold,
        path,
        g,
    );
    let grown = lengths::lengthen(
        &mut tables[LENGTHS..LENGTHS + m],
        capacities,
        q,
        g,
        path,
        p.weight,
    );
    p.counted(g, better, c.alpha, grown, ended)
}
