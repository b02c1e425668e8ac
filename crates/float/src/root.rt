// The square root of a double, correctly rounded: by a first guess that is corrected, or else digit by digit. And the fourth root.
ghost use Rattle.std.specs.Prelude.{◌≡◌, ◌+◌, ◌*◌, ◌/◌, ◌%◌, ◌^◌, ◌≤◌, ◌<◌};
ghost use Rattle.std.specs.Float.{binary64};
ghost use Rattle.std.specs.Float.Ieee.{of_bits};
ghost use Rattle.float.specs.Root.{isqrt, square_root, fourth_root};

// The whole part of the root of m * 2^44, digit by digit: each turn brings two bits of m down.
fn digit_recurrence(m: u64) -> u64
    ensures { result ≡ isqrt 54 (m * 2 ^ 44) }
{
    let mut reg = m;
    let mut rem = 0u64;
    let mut root = 0u64;
    for i in 0..54u32 {
        rem = rem * 4 + (reg >> 62);
        reg = reg << 2;
        let trial = 4 * root + 1;
        root = 2 * root;
        if trial <= rem {
            rem -= trial;
            root += 1;
        }
    }
    root
}

// The number high * 2^54 + low.
#[derive(Clone, Copy)]
struct Wide {
    high: u64,
    low: u64,
}

// q squared, from its halves of 27 digits. They stay, since a must-fail edit loses a carry between them (square_carry_lost).
fn square(q: u64) -> Wide
    requires { q < 2 ^ 54 }
    ensures { (result.high ≡ q * q / 2 ^ 54) × (result.low ≡ q * q % 2 ^ 54) }
{
    let a = q >> 27;
    let b = q % 0x0800_0000;
    let mid = 2 * (a * b);
    let low = b * b + mid % 0x0800_0000 * 0x0800_0000;
    Wide {
        high: a * a + (mid >> 27) + (low >> 54),
        low: low % 0x0040_0000_0000_0000,
    }
}

// A number on the way to the root of another: root * root + rest is that other.
#[derive(Clone, Copy)]
struct Candidate {
    root: u64,
    rest: u64,
}

// Raised by `by`, where the rest is enough for it.
fn raise(c: Candidate, by: u64) -> Candidate
    requires { (c.root < 2 ^ 55) × (by ≤ 2) }
    ensures { (result.root * result.root + result.rest ≡ c.root * c.root + c.rest) × (result.root ≤ c.root + by) }
{
    let more = by * (2 * c.root + by);
    if more <= c.rest {
        return Candidate {
            root: c.root + by,
            rest: c.rest - more,
        };
    }
    c
}

// One of Newton's steps from y to 1 over the root of x, by half of x.
fn newton(half: f64, y: f64) -> f64 {
    1.5 * y - half * y * (y * y)
}

// A first guess at what floor_root finds, from the double's own bits b. Only the time rests on it: a normal double's was never
// seen too high, or more than 3 too low (docs/SPEED.md), and a bad one is not taken for the root.
// x is the significand with the last digit of the exponent, from 0.5 up to 2. Half its bits, taken from a constant, give those
// of 1 over its root to 3.5 parts in 100, and three of Newton's steps leave 4 parts in 10^11 of that. The root s, which
// follows from it, takes a step too, and then there is no more than rounding. The significand, less one, is doubled.
fn guess(b: u64) -> u64
    ensures { result < 2 ^ 54 }
{
    let bits = b % 0x0020_0000_0000_0000 + 0x3fe0_0000_0000_0000;
    let x = f64::from_bits(bits);
    let half = 0.5 * x;
    let rough = f64::from_bits(0x5fe6_eb50_c7b5_37a9 - (bits >> 1));
    let y = newton(half, newton(half, newton(half, rough)));
    let s = x * y;
    let root = s + 0.5 * y * (x - s * s);
    if root != root {
        return 0;
    }
    2 * (f64::to_bits(root) % 0x0010_0000_0000_0000 + 0x000f_ffff_ffff_ffff)
}

// The whole part of the root of m * 2^44. The guess from b is squared, exactly, and raised by as much as 3; what is then left
// above its square shows whether it is the root. Where it is not, where the guess is too high, or where what is left does not
// fit 64 bits, the digit recurrence finds it: so of subnormals, whose bits give no guess.
fn floor_root(m: u64, b: u64) -> u64
    ensures { result ≡ isqrt 54 (m * 2 ^ 44) }
{
    let g = guess(b);
    let s = square(g);
    let high = m >> 10;
    let low = m % 1024 * 0x1000_0000_0000;
    if s.high <= high {
        if high - s.high < 1024 {
            let left = (high - s.high) * 0x0040_0000_0000_0000 + low;
            if s.low <= left {
                let c = Candidate {
                    root: g,
                    rest: left - s.low,
                };
                let r = raise(raise(c, 2), 1);
                if r.rest <= 2 * r.root {
                    return r.root;
                }
            }
        }
    }
    digit_recurrence(m)
}

// The bits of the root of the positive finite double whose bits are b. The significand m is brought
// to bit 63 or 62 by its leading zeros, so that the power of two left over is even.
fn root_bits(b: u64) -> u64
    requires { (0 < b) × (b < 2047 * 2 ^ 52) }
    ensures { (result < 2047 * 2 ^ 52) × (of_bits binary64 result ≡ square_root (of_bits binary64 b)) }
{
    let field = b >> 52;
    let mut m = b % 0x0010_0000_0000_0000;
    let mut j = 0u64;
    if 0 < field {
        m += 0x0010_0000_0000_0000;
        j = field - 1;
    }
    let z = u64::leading_zeros(m) as u64;
    let sh = z - (z + j) % 2;
    let q = floor_root(m << sh, b);
    (j + 1032 - sh) / 2 * 0x0010_0000_0000_0000 + (q + 1) / 2
}

// IEEE 754's squareRoot.
pub fn sqrt(x: f64) -> f64
    ensures { result ≡ square_root x }
{
    if x != x {
        return x;
    }
    if x == 0.0 {
        return x;
    }
    if x < 0.0 {
        return 0.0 / 0.0;
    }
    let b = f64::to_bits(x);
    if b == 0x7ff0_0000_0000_0000 {
        return x;
    }
    f64::from_bits(root_bits(b))
}

// The fourth root, by two square roots.
pub fn fourth_root(x: f64) -> f64
    ensures { result ≡ fourth_root x }
{
    sqrt(sqrt(x))
}
