// The square root of an `f64`, rounded to the nearest: a guess in floating point, which integers put
// right and certify.
#![tactic(auto)]

ghost use Rattle.std.specs.Prelude.{◌≡◌, ◌+◌, ◌*◌, ◌/◌, ◌%◌, ◌^◌, ◌<◌, ◌≤◌, T, IfSome, to_bits};
ghost use Rattle.std.specs.Float.{binary64};
ghost use Rattle.std.specs.Float.Ieee.Positive.{positive};
ghost use Rattle.std.specs.Float as Floats;
ghost use Rattle.roots.specs.Certificate.{NearestWhole};
ghost use Rattle.roots.specs.Nearest.{NearestRoot};
ghost use Rattle.roots.specs.Special.{SpecialRoot};

// The pattern of the smallest normal double, and that of infinity.
const SMALLEST_NORMAL: u64 = 0x10_0000_0000_0000;

const INFINITY: u64 = 0x7ff0_0000_0000_0000;

// A normal double above 0, which is significand * 2^exponent steps of 2^-1074.
#[derive(Clone, Copy)]
struct Normal {
    exponent: u64,
    significand: u64,
    ghost digits: { 2 ^ 52 ≤ significand × significand < 2 ^ 53 },
    ghost finite: { exponent ≤ 2045 },
}

impl Normal {
    // The double that has the pattern `bits`, where it is normal and above 0.
    fn from_pattern(bits: u64) -> Option<Normal>
        ensures { IfSome result (λ x. bits ≡ x.exponent * 2 ^ 52 + x.significand) }
    {
        if !(SMALLEST_NORMAL..INFINITY).contains(&bits) {
            return None;
        }
        let exponent = bits / SMALLEST_NORMAL - 1;
        Some(Normal {
            exponent,
            significand: bits - exponent * SMALLEST_NORMAL,
        })
    }

    // The significand moved to an even exponent, which can be halved, and to 105 or 106 binary digits, so
    // that its root has 53.
    fn radicand(self) -> u128
        ensures { result ≡ self.significand * (1 + self.exponent % 2) * 2 ^ 52 }
    {
        u128::from(self.significand * (1 + self.exponent % 2)) * u128::from(SMALLEST_NORMAL)
    }

    // The exponent of the root, as the part of its pattern to which the 53 digits are added.
    fn root_exponent(self) -> u64
        ensures { result ≡ (self.exponent / 2 + 511) * 2 ^ 52 }
    {
        (self.exponent / 2 + 511) * SMALLEST_NORMAL
    }
}

// A number near the root of x, whose pattern is `bits`. No proof says how near: a guess that is far
// off only costs time. The first line is within 4 % of 1 / root(x), by halving the exponent and
// changing its sign, the third within 0.003 %, by a quadratic fit, and the last within an ulp or so.
#[tactic(auto, using(std::proofs::lemmas::Float::not_nan_f64_bits))]
fn guess(x: f64, bits: u64) -> f64
    requires { bits < 2047 * 2 ^ 52 }
{
    let y = f64::from_bits(0x5fe6_eb50_c7b5_37a9 - bits / 2);
    let w = x * y * y;
    let y = 1.8765966773758582 * y + y * w * (0.37550060068443375 * w - 1.2520970629034558);
    let root = x * y;
    let e = 1.0 - root * y;
    root + root * e * (0.5 + 0.375 * e + e * e * 0.3125)
}

// The whole number nearest to the root of `square`, where `near` is at most 1 off it.
fn nearest_whole_root(square: u128, near: u64) -> Option<u64>
    requires { square < 2 ^ 106 }
    ensures { IfSome result (λ n. NearestWhole square n) }
{
    // Far off, and the products below could wrap.
    if 0x40_0000_0000_0000 <= near {
        return None;
    }
    // n is nearest where n^2 - n < square <= n^2 + n. In `rest` the bounds of the three n are small.
    let rest = (square + u128::from(3 * near)).wrapping_sub(u128::from(near) * u128::from(near));
    // Two comparisons: `contains` of a range of `u128` makes a root of 15.0 ns take 16.4.
    if rest <= 2 || u128::from(6 * near + 2) < rest {
        return None;
    }
    let rest = rest as u64;
    if rest <= 2 * near {
        Some(near - 1)
    } else if rest <= 4 * near {
        Some(near)
    } else {
        Some(near + 1)
    }
}

// The pattern of x, where x is a number.
fn pattern(x: f64) -> Option<u64>
    ensures { IfSome result (λ b. b ≡ to_bits binary64 x) }
{
    (!x.is_nan()).then(|| x.to_bits())
}

// The root of a normal x above 0, where the guess is good enough.
fn certified_root(x: f64) -> Option<f64>
    ensures { IfSome result (λ y. y ≡ Floats.sqrt binary64 x) }
{
    let bits = pattern(x)?;
    let normal = Normal::from_pattern(bits)?;
    let base = normal.root_exponent();
    let near = pattern(guess(x, bits))?;
    let digits = nearest_whole_root(normal.radicand(), near.wrapping_sub(base))?;
    Some(f64::from_bits(base + digits))
}

// The square root of x, as `x.sqrt()` has it: the double nearest to the exact root.
pub fn square_root(x: f64) -> f64
    ensures value { result ≡ Floats.sqrt binary64 x }
    ensures nearest { T (positive x) → NearestRoot x result }
    ensures others { SpecialRoot x result }
{
    certified_root(x).unwrap_or_else(|| x.sqrt())
}
