// Numbers and doubles from hexadecimal digits, as the format {:016x} writes them.
#![tactic(auto)]

ghost use Rattle.std.specs.Prelude.{◌≡◌};
ghost use Rattle.std.specs.Float.{binary64};
ghost use Rattle.std.specs.Float.Ieee.{of_bits};
ghost use Rattle.digits.specs.Digits.{digit_of, number_of};

// The value of a digit. The library's to_digit reads capital letters too, and no program writes those.
fn digit(byte: u8) -> Option<u64>
    ensures { result ≡ digit_of byte }
{
    match byte {
        b'0'..=b'9' => Some(u64::from(byte - b'0')),
        b'a'..=b'f' => Some(u64::from(byte - b'a') + 10),
        _ => None,
    }
}

// The number that up to sixteen digits write.
pub fn number_of(digits: &[u8]) -> Option<u64>
    ensures { result ≡ number_of digits.now }
{
    if digits.len() > 16 {
        return None;
    }
    let mut n = 0u64;
    for byte in digits {
        n = n * 16 + digit(*byte)?;
    }
    Some(n)
}

// The double that has these bits; every pattern of a NaN is the one NaN.
pub fn double(bits: u64) -> f64
    ensures { result ≡ of_bits binary64 bits }
{
    let not_a_number = bits % 0x8000_0000_0000_0000 > 0x7ff0_0000_0000_0000;
    if not_a_number {
        return 0.0 / 0.0;
    }
    f64::from_bits(bits)
}
