// Whole numbers past 64 bits, exact: limbs of 32 bits, lowest first. A caller says that what it asks for fits.
ghost use Rattle.std.specs.Prelude.{◌+◌, ◌*◌, ◌<◌, ◌≡◌, ltb};
ghost use Rattle.arith.specs.Limbs.{base, width, limit, from_limbs, Limbs, Writes};

// What a limb is below.
const BASE: u64 = 1 << 32;

// How many limbs a number has. To hold larger numbers, raise this and the specification's width.
const LIMBS: usize = 5;

#[derive(Clone, Copy)]
pub struct Wide {
    pub limbs: [u64; LIMBS],
}

impl From<u64> for Wide {
    ghost from_gives = { λ x w. Writes w.limbs x };

    fn from(x: u64) -> Wide {
        let mut r = [0; LIMBS];
        r[0] = x % BASE;
        r[1] = x / BASE;
        Wide { limbs: r }
    }
}

impl Wide {
    // self * k + other, for one limb k: t is below 2 ^ 64, since limbs and carry are below 2 ^ 32.
    fn times_plus(self, k: u64, other: Wide) -> Wide
        requires { Limbs width self.limbs × Limbs width other.limbs × (k < base)
            × (from_limbs self.limbs * k + from_limbs other.limbs < limit) }
        ensures { Writes result.limbs (from_limbs self.limbs * k + from_limbs other.limbs) }
    {
        let mut r = [0; LIMBS];
        let mut carry = 0;
        for i in 0..LIMBS {
            let t = self.limbs[i] * k + other.limbs[i] + carry;
            r[i] = t % BASE;
            carry = t / BASE;
        }
        Wide { limbs: r }
    }

    // self * 2 ^ 32.
    fn shifted(self) -> Wide
        requires { Limbs width self.limbs × (base * from_limbs self.limbs < limit) }
        ensures { Writes result.limbs (base * from_limbs self.limbs) }
    {
        let mut r = [0; LIMBS];
        r[1..].copy_from_slice(&self.limbs[..LIMBS - 1]);
        Wide { limbs: r }
    }

    // self * k: the two limbs of k one after the other.
    pub fn times(self, k: u64) -> Wide
        requires { Limbs width self.limbs × (from_limbs self.limbs * k < limit) }
        ensures { Writes result.limbs (from_limbs self.limbs * k) }
    {
        let high = self.times_plus(k / BASE, Wide::from(0));
        self.times_plus(k % BASE, high.shifted())
    }

    // Whether self is less than other: the highest limbs that differ decide.
    pub fn less(self, other: Wide) -> bool
        requires { Limbs width self.limbs × Limbs width other.limbs }
        ensures { result ≡ ltb (from_limbs self.limbs) (from_limbs other.limbs) }
    {
        for i in (0..LIMBS).rev() {
            let p = self.limbs[i];
            let q = other.limbs[i];
            if p != q {
                return p < q;
            }
        }
        false
    }
}
