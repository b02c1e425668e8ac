// Whole powers of a double, by repeated squaring.
ghost use Rattle.std.specs.Prelude.{◌≡◌};
ghost use Rattle.float.specs.Power.{raised as raised_to, whole_power};

// x to the m. The loop counts no index: the exponent is halved at each turn.
fn raised(x: f64, m: u32) -> f64
    ensures { result ≡ raised_to x m }
{
    let mut r: f64 = 1.0;
    let mut b = x;
    let mut k = m;
    while k != 0 {
        let odd = k % 2 == 1;
        if odd {
            r = r * b;
        }
        k = k / 2;
        if k != 0 {
            b = b * b;
        }
    }
    r
}

// x to the n, an i32 that is negated for the reciprocal (docs/DECISIONS.md, the list of forms by place). The least i32 cannot be negated: its magnitude is even, so the rule's first turn is taken here.
pub fn powi(x: f64, n: i32) -> f64
    ensures { result ≡ whole_power x n }
{
    if n == -2147483648 {
        return 1.0 / raised(x * x, 1073741824);
    }
    if n < 0 {
        1.0 / raised(x, (-n) as u32)
    } else {
        raised(x, n as u32)
    }
}
