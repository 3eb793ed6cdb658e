// Numbers of IEEE 754 binary64: tests, magnitudes, the larger of two, and the correctly rounded
// square root. The exact account of what a sum loses is in specs/ and proofs/.
#![tactic(auto)]

ghost use Rattle.std.specs.Prelude.{◌≡◌, ◌⊎◌, true, ◌&&◌, from_bits};
ghost use Rattle.std.specs.Float.{binary64};
ghost use Rattle.binary64.specs.Numbers.{is_finite, is_usable, is_far, magnitude, larger, same};
ghost use Rattle.binary64.specs.Root.{root};

use root::Significand;

mod root;

// 2^-52.
pub const EPSILON: f64 = f64::EPSILON;

#[tactic(auto, using(crate::proofs::Bits::finite_is))]
pub fn finite(x: f64) -> bool
    ensures { result ≡ is_finite x }
{
    x.is_finite()
}

// Finite and not at most 0.
pub fn usable(x: f64) -> bool
    ensures { result ≡ is_usable x }
{
    finite(x) && !(x <= 0.0)
}

// Finite and not at most EPSILON.
pub fn far(x: f64) -> bool
    ensures { result ≡ is_far x }
{
    finite(x) && !(x <= EPSILON)
}

// The sign cleared.
#[tactic(auto, using(crate::proofs::Bits::magnitude_is))]
pub fn abs(x: f64) -> f64
    ensures { result ≡ magnitude x }
{
    x.abs()
}

// The larger; beside a NaN the other; of two that are equal the first, which the clause of std's `max` leaves open.
#[tactic(auto, unfolding(crate::specs::Numbers::larger))]
pub fn max(a: f64, b: f64) -> f64
    ensures { result ≡ larger a b }
{
    if a.is_nan() || a < b { b } else { a }
}

// The float nearest to the exact square root. std has one; here it is worked out, and what its midpoints say is
// proved (docs/DECISIONS.md).
pub fn sqrt(x: f64) -> f64
    ensures { result ≡ root x }
{
    if x.is_nan() {
        return x;
    }
    let b = x.to_bits();
    if b >= 0x7ff0_0000_0000_0000 {
        // infinity, -0, or below zero
        if b <= 0x8000_0000_0000_0000 {
            return x;
        }
        return f64::NAN;
    }
    if b >= 0x10_0000_0000_0000 {
        return root::normal(b);
    }
    if b == 0 {
        return x;
    }
    // a subnormal's fraction, brought to full width
    let z = u64::from(b.leading_zeros()) - 11;
    root::scaled(Significand { digits: b << z }, 1074 - z)
}

// The same, with a guess: where the guess's square, rounded, is x, the guess is the root. The
// guesses that are taken are from 2^-485 to 2^416.
pub fn sqrt_guessed(x: f64, guess: f64) -> f64
    ensures { result ≡ root x }
{
    if guess * guess == x {
        let b = guess.to_bits();
        if (0x21a0_0000_0000_0000..0x59f0_0000_0000_0000).contains(&b) {
            return guess;
        }
    }
    sqrt(x)
}

// Whether two numbers have the same bits; a NaN has those of every NaN.
pub fn same(a: f64, b: f64) -> bool
    ensures { result ≡ same a b }
{
    if a.is_nan() {
        return b.is_nan();
    }
    if b.is_nan() {
        return false;
    }
    a.to_bits() == b.to_bits()
}

// Its bits; 0 in place of a NaN, of whose bits std says nothing.
fn bits_of(x: f64) -> u64
    ensures bits { (result ≡ 0) ⊎ (from_bits binary64 result ≡ x) }
{
    if x.is_nan() { 0 } else { x.to_bits() }
}

// Whether r is seen to be the root of x by a test in floating point, without a division, a table or a branch:
// where it is not seen, `is_root` tells.
#[tactic(auto, using(crate::proofs::Identical::confirmed))]
pub fn confirms(x: f64, r: f64) -> bool
    ensures { result ≡ true → same r (root x) ≡ true }
{
    root::confirms(bits_of(x), bits_of(r))
}

// Whether r is the root of x, to the last bit.
pub fn is_root(x: f64, r: f64) -> bool
    ensures { result ≡ same r (root x) }
{
    confirms(x, r) || same(r, sqrt(x))
}

// Whether r is the root of x, and s that of y: as a rule without a branch on either.
pub fn are_roots(x: f64, r: f64, y: f64, s: f64) -> bool
    ensures { result ≡ (same r (root x) && same s (root y)) }
{
    (confirms(x, r) & confirms(y, s)) || (is_root(x, r) && is_root(y, s))
}
