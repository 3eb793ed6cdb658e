// The square root of a number above zero: a guess in floating point and a test of it in floating point,
// which about one number in 115 does not pass; for that one the significand as a whole number of 53 digits,
// by an exact check of the guess, and digit by digit where the check does not pass.
ghost use Rattle.std.specs.Prelude.{◌≡◌, ◌+◌, ◌*◌, ◌/◌, ◌%◌, ◌^◌, ◌<◌, ◌≤◌, true, T, IfSome};
ghost use Rattle.std.specs.Float.{binary64};
ghost use Rattle.std.specs.Float.Ieee.{fits, le, mul};
ghost use Rattle.binary64.specs.Root.{nearest_root};
ghost use Rattle.binary64.specs.Significand.{Near, Start, RootBits, Confirmed, rest, margin};

// A number of 53 binary digits, the first of them a 1.
#[derive(Clone, Copy)]
pub(crate) struct Significand {
    pub(crate) digits: u64,
    ghost least: { 2 ^ 52 ≤ digits },
    ghost most: { digits < 2 ^ 53 },
}

// The whole number nearest to the root of a * 2^52, two binary digits of the radicand and one of
// the root a turn: q is the root so far, and rest what is left of the digits passed.
fn by_digits(a: u64) -> u64
    requires above_zero { 0 < a }
    requires most { a < 2 ^ 54 }
    ensures { Near a result }
{
    let mut q: u64 = 0;
    let mut rest: u64 = 0;
    let mut n: u64 = a << 10;
    for _i in 0..54u64 {
        let r = rest * 4 + (n >> 62);
        let t = q * 4 + 1;
        n <<= 2;
        if t <= r {
            rest = r - t;
            q = q * 2 + 1;
        } else {
            rest = r;
            q = q * 2;
        }
    }
    (q + 1) / 2
}

// The whole number nearest to the root of a * 2^52 where that is h or next to it.
// With h = high * 2^23 + low, a * 2^52 - h^2 is (a * 64 - high^2) * 2^46 - high * low * 2^24 - low^2.
// 190 * 2^46 is added, so that nothing is below zero near the root.
fn corrected(a: u64, guess: Significand) -> Option<u64>
    requires { a < 2 ^ 54 }
    ensures { IfSome result (Near a) }
{
    let h = guess.digits;
    let high = h >> 23;
    let low = h % 0x80_0000;
    let left = (a * 64 + 190).wrapping_sub(high * high);
    if left >= 0x8000_0000 {
        return None;
    }
    let rest = (left * 0x40_0000).wrapping_sub(high * low);
    if rest >= 0x5f80_0000 {
        return None;
    }
    let difference = rest * 0x100_0000;
    let none = low * low + 0x2f_8000_0000_0000;
    Some(h + u64::from(none + h < difference) - u64::from(difference + h <= none))
}

// A number of 26 digits near the root of y, which is from 1 up to 4, by the line of y's interval. Both go by their
// bit patterns.
#[tactic(auto, using(crate::proofs::root::Placed::start_of))]
fn start(bits: u64) -> u64
    requires from_one { 0x3ff0_0000_0000_0000 ≤ bits }
    requires below_four { bits < 0x4010_0000_0000_0000 }
    ensures { Start result }
{
    let i = ((bits - 0x3ff0_0000_0000_0000) >> 45) % 256;
    let along = (bits >> 13) % 0x1_0000_0000;
    let line = lines::inner::line(i);
    let near = line.wrapping_add(along * (line % 0x1_0000) / 8);
    near % 0x10_0000_0000_0000 / 0x800_0000 * 0x800_0000 + 0x3ff0_0000_0000_0000
}

// A step of Halley's from s towards the root of y, which triples the digits.
fn refined(s: f64, y: f64) -> f64
    ensures { T (fits binary64 result) }
{
    let square = s * s;
    s + (s + s) * (y - square) / (square * 3.0 + y)
}

// Whether what is left of y without the square of g is less than a last digit's worth, s being near g. The
// square of s, a number of 26 digits, is exact, and g * g - s * s is (g - s) * (s + g).
#[tactic(auto, using(std::proofs::lemmas::Float::not_nan_f64_bits))]
fn settles(y: f64, s: f64, g: f64) -> bool
    ensures { result ≡ le (mul binary64 (rest y s g) (rest y s g)) (mul binary64 (mul binary64 s s) margin) }
{
    let square = s * s;
    let left = (y - square) - (g - s) * (s + g);
    left * left <= square * f64::from_bits(0x396f_e000_0000_0000)
}

// The root of y, from 1 up to 4, where the guess settles it. Both go by their bit patterns.
#[tactic(auto, using(std::proofs::lemmas::Float::not_nan_f64_bits))]
fn quick(bits: u64) -> Option<u64>
    requires from_one { 0x3ff0_0000_0000_0000 ≤ bits }
    requires below_four { bits < 0x4010_0000_0000_0000 }
    ensures { IfSome result (RootBits bits) }
{
    let near = start(bits);
    let s = f64::from_bits(near);
    let y = f64::from_bits(bits);
    let g = refined(s, y);
    if settles(y, s, g) {
        let root = g.to_bits();
        if root >> 38 == near >> 38 {
            return Some(root);
        }
    }
    None
}

// Whether the test tells that the number with the bit pattern k is the root of the normal number with the pattern b.
// Both are brought between 1 and 4 by powers of two, and the first 26 digits of the former take the place of a guess.
// Without a branch, so that a caller can ask for two numbers at once.
#[tactic(auto, using(std::proofs::lemmas::Float::not_nan_f64_bits))]
pub(crate) fn confirms(b: u64, k: u64) -> bool
    ensures { result ≡ true → Confirmed b k }
{
    let t = b.wrapping_add(0x10_0000_0000_0000);
    let fraction = k % 0x10_0000_0000_0000;
    let leading = fraction / 0x800_0000 * 0x800_0000;
    let y = f64::from_bits(t % 0x20_0000_0000_0000 + 0x3ff0_0000_0000_0000);
    let s = f64::from_bits(leading + 0x3ff0_0000_0000_0000);
    let g = f64::from_bits(fraction + 0x3ff0_0000_0000_0000);
    (b.wrapping_sub(0x10_0000_0000_0000) < 0x7fe0_0000_0000_0000)
        & (k >> 52 == (t >> 53) + 0x1ff)
        & settles(y, s, g)
}

// A guess at the whole number nearest to the root of a * 2^odd * 2^52. Half of a bit pattern, and a number, is
// the pattern of a root within 4 parts in 100. `start` has one caller, so that the compiler puts it there.
#[tactic(auto, using(std::proofs::lemmas::Float::not_nan_f64_bits))]
fn guess(a: Significand, odd: u64) -> Significand
    requires { odd < 2 }
{
    let bits = 0x3fe0_0000_0000_0000 + odd * 0x10_0000_0000_0000 + a.digits;
    let y = f64::from_bits(bits);
    let half = f64::from_bits(bits / 2 + 0x1ff7_a3be_a91d_9b1b);
    let g = refined(refined(refined(half, y), y), y);
    let fraction = if g.is_nan() {
        0
    } else {
        g.to_bits() % 0x10_0000_0000_0000
    };
    Significand {
        digits: fraction + 0x10_0000_0000_0000,
    }
}

// The whole number nearest to the root of a * 2^odd * 2^52.
fn root_digits(a: Significand, odd: u64) -> u64
    requires { odd < 2 }
    ensures { Near (a.digits + odd * a.digits) result }
{
    let n = a.digits + odd * a.digits;
    match corrected(n, guess(a, odd)) {
        Some(h) => h,
        None => by_digits(n),
    }
}

// x is a * 2^(e - 2148), with e from 1022 to 3119. Its root is h * 2^(k - 1074).
pub(crate) fn scaled(a: Significand, e: u64) -> f64
    requires least { 1022 ≤ e }
    requires most { e < 3120 }
    ensures { result ≡ nearest_root binary64 (a.digits * 2 ^ e) }
{
    let h = root_digits(a, e % 2);
    f64::from_bits((e - 52) / 2 * 0x10_0000_0000_0000 + h)
}

// The root of a normal number by its bit pattern. Twice the power of two that is set aside is even.
pub(crate) fn normal(b: u64) -> f64
    requires least { 2 ^ 52 ≤ b }
    requires most { b < 0x7ff0_0000_0000_0000 }
    ensures { result ≡ nearest_root binary64 ((b % 2 ^ 52 + 2 ^ 52) * 2 ^ (b / 2 ^ 52 + 1073)) }
{
    let t = b + 0x10_0000_0000_0000;
    match quick(t % 0x20_0000_0000_0000 + 0x3ff0_0000_0000_0000) {
        Some(g) => f64::from_bits((t >> 53) * 0x10_0000_0000_0000 + g - 0x2000_0000_0000_0000),
        None => {
            let digits = b % 0x10_0000_0000_0000 + 0x10_0000_0000_0000;
            scaled(Significand { digits }, (b >> 52) + 1073)
        }
    }
}
