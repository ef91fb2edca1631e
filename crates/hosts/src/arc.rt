// Arc sine and arc tangent of the series host.
ghost use Rattle.std.specs.Prelude.{◌≡◌, fold, map, reverse};
ghost use Rattle.std.specs.List.{range_with_len};
ghost use Rattle.points.specs.Rounded.{◌⊖◌, ◌⊗◌};
ghost use Rattle.hosts.specs.Arc as Arc;

use crate::length::root;
use std::f64::consts::{FRAC_PI_2, PI};

// 1 / (2k + 1), for k from 0 to 12.
const QUOTIENTS: [f64; 13] = [
    1.0 / 1.0,
    1.0 / 3.0,
    1.0 / 5.0,
    1.0 / 7.0,
    1.0 / 9.0,
    1.0 / 11.0,
    1.0 / 13.0,
    1.0 / 15.0,
    1.0 / 17.0,
    1.0 / 19.0,
    1.0 / 21.0,
    1.0 / 23.0,
    1.0 / 25.0,
];

// From `last`, for each quotient from the last to the first: it less z times what is so far.
fn alternating(z: f64, quotients: &[f64], last: f64) -> f64
    ensures { result ≡ fold (λ s q. q ⊖ z ⊗ s) last (reverse quotients.now) }
{
    quotients.iter().rev().fold(last, |s, q| *q - z * s)
}

fn arc_sum(z: f64) -> f64
    ensures sum { result ≡ Arc.arc_sum z }
    ensures table { QUOTIENTS ≡ map Arc.quotient (range_with_len 0 13) }
{
    alternating(z, &QUOTIENTS[..12], QUOTIENTS[12])
}

// The tangent of half the angle whose tangent is v.
fn half(v: f64) -> f64
    ensures { result ≡ Arc.half v }
{
    v / (1.0 + root(1.0 + v * v))
}

fn arc_within(v: f64) -> f64
    ensures { result ≡ Arc.arc_within v }
{
    let v = half(half(v));
    4.0 * (v * arc_sum(v * v))
}

fn arc(v: f64) -> f64
    ensures { result ≡ Arc.arc v }
{
    if 1.0 < v {
        FRAC_PI_2 - arc_within(1.0 / v)
    } else if v < -1.0 {
        -FRAC_PI_2 - arc_within(1.0 / v)
    } else {
        arc_within(v)
    }
}

// The angle of (x, y).
fn angle(y: f64, x: f64) -> f64
    ensures { result ≡ Arc.angle y x }
{
    if 0.0 < x {
        arc(y / x)
    } else if x < 0.0 && 0.0 <= y {
        arc(y / x) + PI
    } else if x < 0.0 {
        arc(y / x) - PI
    } else if 0.0 < y {
        FRAC_PI_2
    } else if y < 0.0 {
        -FRAC_PI_2
    } else {
        0.0
    }
}

pub(crate) fn atan2(y: f64, x: f64) -> Option<f64>
    ensures { result ≡ Arc.atan2_answer y x }
{
    (y.is_finite() && x.is_finite()).then(|| angle(y, x))
}

pub(crate) fn asin(x: f64) -> Option<f64>
    ensures { result ≡ Arc.asin_answer x }
{
    x.is_finite().then(|| {
        if 1.0 < x.abs() {
            f64::NAN
        } else {
            angle(x, root((1.0 - x) * (1.0 + x)))
        }
    })
}
