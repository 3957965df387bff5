// The loads of all resources: when they end the run, and which resource is fullest; and a part of a table copied.
ghost use Rattle.std.specs.Prelude.{◌≡◌, ◌+◌, ◌-◌, ◌≤◌, ◌<◌, length};
ghost use Rattle.method.specs.Answer.{fullest};
ghost use Rattle.packed.specs.Packed.{part, put};
ghost use Rattle.tables.specs.Calls.{Loading, Ranking};
ghost use Rattle.tables.specs.Results.{Loaded};

// The draw g added to the loads of what the path uses: whether some load is now at least the threshold times the
// resource's capacity. None was before, so that only these are looked at.
pub fn load(loads: &mut [u64], capacities: &[u64], threshold: u64, path: &[u64], g: u64) -> bool
    requires { Loading loads.old capacities.now threshold path.now g }
    ensures { Loaded loads.old capacities.now threshold path.now g loads.new result }
{
    let mut full = false;
    for e in path {
        let e = *e as usize;
        let y = loads[e] + g;
        loads[e] = y;
        full |= threshold * capacities[e] <= y;
    }
    full
}

// The lowest-numbered resource of the greatest load over capacity: arcs come before stations as full.
pub fn fullest(loads: &[u64], capacities: &[u64]) -> usize
    requires { Ranking loads.now capacities.now }
    ensures { (result ≡ fullest capacities.now loads.now (length loads.now - 1)) × (result < length loads.now) }
{
    let mut b = 0;
    for e in 1..loads.len() {
        if loads[b] * capacities[e] < loads[e] * capacities[b] {
            b = e;
        }
    }
    b
}

// The n numbers from one place of a table on put at another place, further on.
// Kept: std's copy_within was tried, and the archive for C then calls memmove, which a host without libc may not have.
pub fn copy_within(table: &mut [u64], from: usize, to: usize, n: usize)
    requires { (from + n ≤ to) × (to + n ≤ length table.old) }
    ensures { table.new ≡ put to n table.old (part from n table.old) }
{
    for e in 0..n {
        table[to + e] = table[from + e];
    }
}
