// Square root and hypot of the series host.
ghost use Rattle.std.specs.Prelude.{◌≡◌};
ghost use Rattle.points.specs.Rounded.{root as root_of};
ghost use Rattle.hosts.specs.Length as Length;

use roots::square_root;

// The root by its value alone, which is what the series cite.
pub(crate) fn root(x: f64) -> f64
    ensures { result ≡ root_of x }
{
    square_root(x)
}

pub(crate) fn sqrt(x: f64) -> Option<f64>
    ensures { result ≡ Length.sqrt_answer x }
{
    x.is_finite().then(|| root(x))
}

// By the larger magnitude and the smaller, so that no square overflows.
fn scaled(larger: f64, smaller: f64) -> f64
    ensures { result ≡ Length.scaled larger smaller }
{
    if larger == 0.0 {
        0.0
    } else if larger.is_infinite() {
        f64::INFINITY
    } else {
        larger * root(1.0 + (smaller / larger) * (smaller / larger))
    }
}

pub(crate) fn hypot(x: f64, y: f64) -> Option<f64>
    ensures { result ≡ Length.hypot_answer x y }
{
    (!x.is_nan() && !y.is_nan()).then(|| {
        let (a, b) = (x.abs(), y.abs());
        if a < b { scaled(b, a) } else { scaled(a, b) }
    })
}
