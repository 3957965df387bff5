// Signed amounts, in an i64: what goes forward on an arc or, if it is negative, back.
#![tactic(auto)]

ghost use Rattle.std.specs.Prelude.{◌≡◌, ◌+◌, ◌^◌, ◌<◌, pos, ◌+ℤ◌, ◌-ℤ◌};
ghost use Rattle.signed.specs.Signed.{ahead, back, size, twos};
ghost use Rattle.signed.specs.FromTwos.{from_twos};

// x and g more.
pub fn more(x: i64, g: u64) -> i64
    requires { size x + g < 2 ^ 63 }
    ensures { result ≡ x +ℤ pos g }
{
    x + g as i64
}

// x and g less.
pub fn less(x: i64, g: u64) -> i64
    requires { size x + g < 2 ^ 63 }
    ensures { result ≡ x -ℤ pos g }
{
    x - g as i64
}

// How much x is, either way.
pub fn size(x: i64) -> u64
    requires { size x < 2 ^ 63 }
    ensures { result ≡ size x }
{
    x.unsigned_abs()
}

// x in two's complement.
pub fn twos(x: i64) -> u64
    ensures { result ≡ twos x }
{
    x.cast_unsigned()
}

// What goes forward, of an amount in two's complement.
pub fn ahead(u: u64) -> u64
    ensures { result ≡ ahead (from_twos u) }
{
    u.cast_signed().max(0).unsigned_abs()
}

// What goes back, of an amount in two's complement.
pub fn back(u: u64) -> u64
    ensures { result ≡ back (from_twos u) }
{
    u.cast_signed().min(0).unsigned_abs()
}
