// The powers of a double up to the 63rd, kept. Document 01's whole power multiplies by the squarings in ascending order, so that x^n is x^(n - 2^h) times x squared h times, where 2^h is n's
// highest binary digit: one product for each.
ghost use Rattle.std.specs.Prelude.{◌≡◌, ◌+◌, ◌≤◌, ◌^◌, T};
ghost use Rattle.float.specs.Power.{whole_power};
ghost use Rattle.polynomial.specs.Powers.{Filled, squared, exponent};

use std::marker::Model;

// A double with its powers from 0 to 63, each at its exponent. A contract sees the double.
#[derive(Drop)]
pub struct Powers {
    base: f64,
    kept: [f64; 64],
}

impl Model for Powers {
    ghost use Rattle.std.specs.Prelude.{◌≡◌, Float};
    ghost use Rattle.polynomial.specs.Powers.{powers};

    ghost Value = { Float };

    ghost view = { λ p. p.base };

    ghost invariant = { λ p. p.kept ≡ powers p.base };
}

// The powers below `high`, which is 2^h, doubled in number: sq is x squared h times.
fn doubled(x: f64, p: [f64; 64], h: u32, high: usize, sq: f64) -> [f64; 64]
    requires { (high ≡ 2 ^ h) × (high ≤ 32) × (sq ≡ squared h x) × Filled x p high }
    ensures { Filled x result (high + high) }
{
    let mut q = p;
    for i in 0..high {
        q[high + i] = q[i] * sq;
    }
    q
}

impl Powers {
    // The powers of x: from x^0 alone, six times doubled in number.
    pub fn of(x: f64) -> Powers
        ensures { result ≡ x }
    {
        let mut kept: [f64; 64] = [1.0; 64];
        let mut high: usize = 1;
        let mut sq = x;
        for h in 0..6 {
            // A local of its own: no proof is made where a call lays an array into one that is there.
            let more = doubled(x, kept, h, high, sq);
            kept = more;
            high = high + high;
            sq = sq * sq;
        }
        Powers { base: x, kept }
    }

    // The double itself.
    pub fn base(&self) -> f64
        ensures { result ≡ self.now }
    {
        self.base
    }

    // The k-th power: of a negative k, 1 divided by the power of its magnitude.
    pub fn power(&self, k: i32) -> f64
        requires { T (exponent k) }
        ensures { result ≡ whole_power self.now k }
    {
        if k < 0 {
            let m = (-k) as usize;
            return 1.0 / self.kept[m];
        }
        let m = k as usize;
        self.kept[m]
    }
}
