// Laws of sums and powers; products past 64 bits, compared exactly.
#![tactic(auto)]

ghost use Rattle.std.specs.Prelude.{◌≡◌, ◌*◌, ltb};

pub mod wide;

pub use wide::Wide;

// Whether a * b is less than c * d.
pub fn less_product(a: u64, b: u64, c: u64, d: u64) -> bool
    ensures { result ≡ ltb (a * b) (c * d) }
{
    Wide::from(a).times(b).less(Wide::from(c).times(d))
}
