// The magnitude of a double, the smaller of two, sign taking, and signs compared with zero. They are our own, as document 01 asks (its module 2), each with one stated result for every double,
// NaN included, and with the edits that show it.
ghost use Rattle.std.specs.Prelude.{◌≡◌};
ghost use Rattle.std.specs.Float.Ieee.Scale.{finite};
ghost use Rattle.exact.specs.Value.{negative};
ghost use Rattle.float.specs.Sign.{magnitude, smaller, sign_taken, same_sign};

// The magnitude of x: the sign is dropped, of a zero too.
pub fn abs(x: f64) -> f64
    ensures { result ≡ magnitude x }
{
    if x == 0.0 {
        return 0.0;
    }
    if x < 0.0 { -x } else { x }
}

// The smaller of the two; where one is a NaN, the other.
pub fn min(x: f64, y: f64) -> f64
    ensures { result ≡ smaller x y }
{
    if x != x {
        return y;
    }
    if y < x { y } else { x }
}

// Whether y has a minus. Of the two zeros, 1 / -0 is below zero.
fn is_sign_negative(y: f64) -> bool
    ensures { result ≡ negative y }
{
    if y == 0.0 {
        return 1.0 / y < 0.0;
    }
    y < 0.0
}

// The magnitude of x with the sign of y.
pub fn copysign(x: f64, y: f64) -> f64
    ensures { result ≡ sign_taken x y }
{
    let m = abs(x);
    if is_sign_negative(y) { -m } else { m }
}

// Whether both are below zero or both above: no product, which could round to 0.
pub fn same_sign(a: f64, b: f64) -> bool
    ensures { result ≡ same_sign a b }
{
    if a < 0.0 {
        return b < 0.0;
    }
    if 0.0 < a {
        return 0.0 < b;
    }
    false
}

// Neither NaN nor infinite.
pub fn is_finite(x: f64) -> bool
    ensures { result ≡ finite x }
{
    x - x == 0.0
}
