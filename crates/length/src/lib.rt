// Lengths of arcs in whole numbers, and the level and threshold that end a run (document 01, "One choice of route").
#![tactic(auto)]

ghost use Rattle.std.specs.Prelude.{◌≡◌, ◌+◌, ◌^◌, ◌≤◌, ◌<◌, leb};
ghost use Rattle.bounds.specs.Bounds.{most_arcs, most_capacity, least_precision, most_precision};
ghost use Rattle.length.specs.Length.{scale, mark, start, growth, halving};
ghost use Rattle.length.specs.Level.{level, threshold};

use bounds::{LEAST_PRECISION, MOST_ARCS};

mod table;

// The length of an arc. Every quotient is rounded up: rounded down, a length would no longer show its arc's load.
// Below the mark between iterations; growth and halving stay within the bounds of the proofs' `Size`.
#[derive(Clone, Copy)]
pub struct Length {
    pub value: u64,
}

impl Length {
    // Lengths start from the scale, 2^36.
    pub const SCALE: u64 = 1 << 36;

    // They are halved at the mark, 2^40.
    pub const MARK: u64 = 1 << 40;

    // The length that an arc starts with.
    pub fn start(capacity: u64) -> Length
        requires { (1 ≤ capacity) × (capacity ≤ most_capacity) }
        ensures value { result.value ≡ start capacity }
        ensures scale { Length.SCALE ≡ scale }
    {
        Length {
            value: Length::SCALE.div_ceil(capacity),
        }
    }

    // The length after a draw through its arc. Below the mark, the products stay far within 64 bits.
    pub fn growth(self, q: u64, draw: u64, capacity: u64) -> Length
        requires { (least_precision ≤ q) × (q ≤ most_precision) × (draw ≤ capacity) × (1 ≤ capacity) × (capacity ≤ most_capacity) × (self.value < 2 ^ 40) }
        ensures { result.value ≡ growth q draw capacity self.value }
    {
        let l = self.value;
        Length {
            value: l + (l * draw).div_ceil(q * capacity),
        }
    }

    // Half the length, as for every arc once one has reached the mark.
    pub fn halving(self) -> Length
        requires { self.value < 2 ^ 41 }
        ensures { result.value ≡ halving self.value }
    {
        Length {
            value: self.value.div_ceil(2),
        }
    }

    // Whether the length has reached the mark.
    pub fn marked(self) -> bool
        ensures value { result ≡ leb mark self.value }
        ensures mark { Length.MARK ≡ mark }
    {
        Length::MARK <= self.value
    }
}

// Document 01's L for m arcs at precision q.
pub fn level(m: u64, q: u64) -> u64
    requires { (1 ≤ m) × (m ≤ most_arcs) × (least_precision ≤ q) × (q ≤ most_precision) }
    ensures { result ≡ level m q }
{
    let place = (q - LEAST_PRECISION) * MOST_ARCS as u64 + (m - 1);
    u64::from(table::LEVELS[place as usize])
}

// Document 01's load mark T: a run ends when some arc's load is this many times its capacity.
pub fn threshold(m: u64, q: u64) -> u64
    requires { (1 ≤ m) × (m ≤ most_arcs) × (least_precision ≤ q) × (q ≤ most_precision) }
    ensures { result ≡ threshold m q }
{
    q * level(m, q)
}
