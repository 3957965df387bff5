// Numbers in byte slices, eight bytes each, lowest first (document 01, "The floor and its flow"):
// the counts of complete numbers and items, one number read or written, a member of every item read
// out, and a list of numbers written.
#![tactic(auto)]

ghost use Rattle.std.specs.Prelude.{◌≡◌, ℕ, map, ◌*◌, ◌<◌, ◌≤◌, length};
ghost use Rattle.numbers.specs.Numbers.{count, items, number_at, column, written, put_at};
ghost use Rattle.signed.specs.Signed.{twos};

// How many complete numbers `s` holds.
pub fn count(s: &[u8]) -> usize
    ensures { result ≡ count s.now }
{
    s.len() / 8
}

// How many complete items of `k` numbers `s` holds.
pub fn items(s: &[u8], k: usize) -> usize
    requires { (1 ≤ k) × (k ≤ 8) }
    ensures { result ≡ items k s.now }
{
    s.len() / (8 * k)
}

// Number `i` of `s`.
// Kept: a copy into an array was tried, and is slower: copy_from_slice asks whether the two overlap.
pub fn read(s: &[u8], i: usize) -> u64
    requires { i < count s.now }
    ensures { result ≡ number_at s.now i }
{
    let from = 8 * i;
    let bytes = s[from..from + 8].first_chunk().unwrap();
    u64::from_le_bytes(*bytes)
}

// `x` as number `i` of `s`; all other bytes keep their contents.
pub fn write(s: &mut [u8], i: usize, x: u64)
    requires { i < count s.old }
    ensures { s.new ≡ put_at s.old i x }
{
    let to = 8 * i;
    s[to..to + 8].copy_from_slice(&x.to_le_bytes());
}

// Member `j` of each of the first items of `k` numbers of `s`, one for each place of `out`.
pub fn read_column(s: &[u8], k: usize, j: usize, out: &mut [u64])
    requires { (j < k) × (length out.old ≤ items k s.now) }
    ensures { out.new ≡ column s.now k j (length out.old) }
{
    for (i, x) in out.iter_mut().enumerate() {
        *x = read(s, k * i + j);
    }
}

// A number that a byte slice holds in eight bytes.
pub trait Number {
    // Those bytes as a number: itself, or an amount in two's complement.
    ghost bits: { Self → ℕ };

    fn bits(self) -> u64
        ensures { result ≡ bits self };
}

impl Number for u64 {
    ghost bits = { λ x. x };

    fn bits(self) -> u64 {
        self
    }
}

impl Number for i64 {
    ghost bits = { twos };

    fn bits(self) -> u64 {
        signed::twos(self)
    }
}

// The numbers `xs`, into as many first places of `s`; later bytes keep their contents, also those
// of an incomplete last number.
pub fn write_all<T: Number + Copy>(s: &mut [u8], xs: &[T])
    requires { length xs.now ≤ count s.old }
    ensures { s.new ≡ written s.old (map T.bits xs.now) }
{
    for (i, x) in xs.iter().enumerate() {
        write(s, i, x.bits());
    }
}
