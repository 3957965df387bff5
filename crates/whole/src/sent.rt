// What leaves a node, by the amounts in a flow table's bytes.
ghost use Rattle.std.specs.Prelude.{◌≡◌, cond, ◌+◌, ◌≤◌, ◌<◌, ◌^◌, eqb};
ghost use Rattle.numbers.specs.Numbers.{count, items};
ghost use Rattle.whole.specs.Read.{leaves_in};

// The number x if an arc's end is node v.
fn at(end: u64, v: u64, x: u64) -> u64
    ensures { result ≡ cond (eqb end v) x 0 }
{
    if end == v { x } else { 0 }
}

// What leaves node v of the commodity whose amounts begin at place `from` of the flow table.
pub fn leaves(belts: &[u8], flow: &[u8], from: usize, v: u64) -> u64
    requires rows { from + items 4 belts.now ≤ count flow.now }
    requires small { leaves_in belts.now flow.now from v < 2 ^ 64 }
    ensures { result ≡ leaves_in belts.now flow.now from v }
{
    let m = numbers::items(belts, 4);
    let mut total = 0;
    for e in 0..m {
        let amount = numbers::read(flow, from + e);
        let forward = at(numbers::read(belts, 4 * e), v, signed::ahead(amount));
        let backward = at(numbers::read(belts, 4 * e + 1), v, signed::back(amount));
        total += forward + backward;
    }
    total
}
