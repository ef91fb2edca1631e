// Sine and cosine of the series host, with one reduction to a quarter turn.
ghost use Rattle.std.specs.Prelude.{◌≡◌, ◌<◌, ◌+◌, ◌%◌, ◌↔◌, IsTrue, IsSome, IfSome, fold, reverse};
ghost use Rattle.std.specs.Float.Ieee.{le};
ghost use Rattle.points.specs.Rounded.{size, one64, ◌⊖◌, ◌⊘◌, ◌⊗◌};
ghost use Rattle.hosts.specs.Circle as Circle;

use std::f64::consts::{FRAC_2_PI, FRAC_PI_2};
use std::num::saturating_f64_to_i64;

// The farthest angle that is answered: beyond it the reduction has no exact digits left.
const FARTHEST: f64 = 1000000.0;

// What the double of a quarter turn falls short of it.
const FRAC_PI_2_REST: f64 = 6.123233995736766e-17;

// 2k (2k + 1), and (2k - 1) 2k below, for k from 1 to 9.
const SINE_DIVISORS: [f64; 9] = [
    2.0 * 3.0,
    4.0 * 5.0,
    6.0 * 7.0,
    8.0 * 9.0,
    10.0 * 11.0,
    12.0 * 13.0,
    14.0 * 15.0,
    16.0 * 17.0,
    18.0 * 19.0,
];

const COSINE_DIVISORS: [f64; 9] = [
    1.0 * 2.0,
    3.0 * 4.0,
    5.0 * 6.0,
    7.0 * 8.0,
    9.0 * 10.0,
    11.0 * 12.0,
    13.0 * 14.0,
    15.0 * 16.0,
    17.0 * 18.0,
];

// From 1, for each divisor from the last to the first: 1 less z over it, times what is so far.
fn series(z: f64, divisors: &[f64]) -> f64
    ensures { result ≡ fold (λ s d. one64 ⊖ z ⊘ d ⊗ s) one64 (reverse divisors.now) }
{
    divisors.iter().rev().fold(1.0, |s, d| 1.0 - z / *d * s)
}

fn sine_part(r: f64) -> f64
    ensures { result ≡ Circle.sine_part r }
{
    r * series(r * r, &SINE_DIVISORS)
}

fn cosine_part(r: f64) -> f64
    ensures { result ≡ Circle.cosine_part r }
{
    series(r * r, &COSINE_DIVISORS)
}

// The nearest whole number of quarter turns.
fn quarters(x: f64) -> f64
    ensures { result ≡ Circle.quarters x }
{
    (x * FRAC_2_PI).round()
}

fn rest(x: f64, q: f64) -> f64
    ensures { result ≡ Circle.rest x q }
{
    (x - q * FRAC_PI_2) - q * FRAC_PI_2_REST
}

fn quadrant(q: f64) -> u64
    ensures { result ≡ Circle.quadrant q }
{
    saturating_f64_to_i64(q).rem_euclid(4).unsigned_abs()
}

// An angle less its whole quarter turns, and their number by fours.
#[derive(Clone, Copy)]
struct Reduced {
    quadrant: u64,
    rest: f64,
    ghost by_fours: { quadrant < 4 },
}

impl Reduced {
    // The angle x, where it is answered.
    fn of(x: f64) -> Option<Reduced>
        ensures answered { IsSome result ↔ IsTrue (le (size x) Circle.farthest) }
        ensures quadrant { IfSome result (λ a. a.quadrant ≡ Circle.quadrant (Circle.quarters x)) }
        ensures rest { IfSome result (λ a. a.rest ≡ Circle.rest x (Circle.quarters x)) }
    {
        (x.abs() <= FARTHEST).then(|| {
            let q = quarters(x);
            Reduced {
                quadrant: quadrant(q),
                rest: rest(x, q),
            }
        })
    }

    // The angle a quarter turn further on: its sine is the cosine of this one.
    fn quarter_on(self) -> Reduced
        ensures quadrant { result.quadrant ≡ (self.quadrant + 1) % 4 }
        ensures rest { result.rest ≡ self.rest }
    {
        Reduced {
            quadrant: (self.quadrant + 1) % 4,
            rest: self.rest,
        }
    }

    fn sine(self) -> f64
        ensures { result ≡ Circle.sine_in self.quadrant self.rest }
    {
        match self.quadrant {
            0 => sine_part(self.rest),
            1 => cosine_part(self.rest),
            2 => -sine_part(self.rest),
            _ => -cosine_part(self.rest),
        }
    }
}

pub(crate) fn sin(x: f64) -> Option<f64>
    ensures { result ≡ Circle.sin_answer x }
{
    Reduced::of(x).map(|angle| angle.sine())
}

pub(crate) fn cos(x: f64) -> Option<f64>
    ensures { result ≡ Circle.cos_answer x }
{
    Reduced::of(x).map(|angle| angle.quarter_on().sine())
}
