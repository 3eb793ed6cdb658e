// Bit patterns of f64s, NaNs' among them, of which `f64::from_bits` and `f64::to_bits` take none; and
// words and patterns as text, read and written.
#![tactic(auto)]

ghost use Rattle.std.specs.Prelude.{◌≡◌, true, ◌↔◌};
ghost use Rattle.std.specs.Float.{binary64};
ghost use Rattle.std.specs.Float.Ieee.{of_bits, to_bits, nan_bits};
ghost use Rattle.pattern.specs.Text.{Digit};

pub mod inner;
pub mod word;

// Whether a pattern is a NaN's.
fn is_nan(bits: u64) -> bool
    ensures { result ≡ nan_bits binary64 bits }
{
    bits % 0x8000_0000_0000_0000 > 0x7ff0_0000_0000_0000
}

// The value that has a pattern.
pub fn value(bits: u64) -> f64
    ensures { result ≡ of_bits binary64 bits }
{
    if is_nan(bits) {
        return f64::NAN;
    }
    f64::from_bits(bits)
}

// The word of each number of an output before a call; as a float it is no NaN.
pub const FILL: usize = 0xa5a5_a5a5_a5a5_a5a5;

// The float of that word.
pub fn fill() -> f64
    ensures { result ≡ of_bits binary64 FILL }
{
    value(FILL as u64)
}

// Whether a pattern is x's. Each NaN's pattern is every NaN's.
pub fn is_of(bits: u64, x: f64) -> bool
    ensures { (result ≡ true) ↔ (x ≡ of_bits binary64 bits) }
{
    if x.is_nan() {
        return is_nan(bits);
    }
    f64::to_bits(x) == bits
}

// x's pattern; a NaN's is 7ff8000000000000, whatever its payload.
pub fn bits(x: f64) -> u64
    ensures { result ≡ to_bits binary64 x }
{
    if x.is_nan() {
        return 0x7ff8_0000_0000_0000;
    }
    f64::to_bits(x)
}

// The value of the hex digit b.
#[tactic(auto, using(crate::proofs::Digits::low_digit, crate::proofs::Digits::high_digit, crate::proofs::Digits::no_digit))]
pub fn digit(b: u8) -> Option<u64>
    ensures { Digit b result }
{
    match b {
        b'0'..=b'9' => Some((b - b'0') as u64),
        b'a'..=b'f' => Some((b - b'a') as u64 + 10),
        _ => None,
    }
}
