// What the measures ask of a space.
ghost use Rattle.std.specs.Prelude.{◌≡◌, Bool, ◌&&◌, Result, Float};
ghost use Rattle.std.specs.Float.{float_is_finite};
ghost use Rattle.points.specs.Faults.{ensured};
ghost use Rattle.points.specs.declared.fault.Cause.TheVariants.{NotFinite};
ghost use Rattle.points.specs.declared.fault.Fault.{Fault};
ghost use Rattle.points.specs.declared.fault.Layer.TheVariants as layers;
ghost use Rattle.points.specs.declared.point.Point.{Point};
ghost use Rattle.spaces.specs.Space.{Measures, Lands, by_pair, distance_answer, within};

use points::fault::{Cause, Fault, Layer, ensure};
use points::point::Point;

// A space means the points that it admits and three functions, each to one result or to one refusal, alike
// every time. The laws say what each implementation owes: which refusal is given where, and that what is
// accepted is finite and admitted.
pub trait Space {
    // Two points and what all points between them share, worked out once.
    type Pair: Copy;

    ghost admits: { Self → Point → Bool };

    ghost far: { Self → Point → Point → Result Float Fault };

    ghost ratio: { Self → Point → Point → Float → Result Point Fault };

    ghost along: { Self → Point → Point → Float → Result Point Fault };

    ghost paired: { Self → Point → Point → Result Self.Pair Fault };

    ghost between: { Self → Self.Pair → Float → Result Point Fault };

    fn distance(&self, origin: Point, destination: Point) -> Result<f64, Fault>
        ensures { result ≡ far self.now origin destination };

    fn point_at_ratio_between(
        &self,
        start: Point,
        end: Point,
        ratio_from_start: f64,
    ) -> Result<Point, Fault>
        ensures { result ≡ ratio self.now start end ratio_from_start };

    fn point_at_distance_between(
        &self,
        start: Point,
        end: Point,
        distance_from_start: f64,
    ) -> Result<Point, Fault>
        ensures { result ≡ along self.now start end distance_from_start };

    fn pair(&self, start: Point, end: Point) -> Result<Self::Pair, Fault>
        ensures { result ≡ paired self.now start end };

    fn point_at_ratio(&self, pair: Self::Pair, ratio_from_start: f64) -> Result<Point, Fault>
        ensures { result ≡ between self.now pair ratio_from_start };

    // The laws. They stand below the last function: above it a ghost member is data, which owes no proof.
    ghost distances: { (s : Self) (p q : Point) → Measures (admits s p && admits s q) (far s p q) };

    ghost ratios: { (s : Self) (p q : Point) (t : Float)
        → Lands (admits s) (float_is_finite t) (admits s p && admits s q) (ratio s p q t) };

    ghost alongs: { (s : Self) (p q : Point) (t : Float)
        → Lands (admits s) (float_is_finite t) (admits s p && admits s q) (along s p q t) };

    ghost pairs: { (s : Self) (p q : Point) (t : Float)
        → ratio s p q t ≡ by_pair (float_is_finite t) (paired s p q) (λ pair. between s pair t) };
}

// A distance as it is answered: −0 as +0, and a refusal where it is not finite or below zero.
pub(crate) fn distance_answer(distance: f64) -> Result<f64, Fault>
    ensures { result ≡ distance_answer distance }
{
    ensure(
        distance.is_finite() && 0.0 <= distance,
        Cause::BadResult,
        Layer::Space,
    )?;
    Ok(distance.abs())
}

// A ratio and a distance that are asked for are finite, or refused.
pub(crate) fn check_finite(number: f64) -> Result<(), Fault>
    ensures { result ≡ ensured (float_is_finite number) NotFinite layers.Space }
{
    ensure(number.is_finite(), Cause::NotFinite, Layer::Space)
}

// Whether two points are at most `distance` apart.
pub fn distance_within<S: Space>(
    space: &S,
    origin: Point,
    destination: Point,
    distance: f64,
) -> Result<bool, Fault>
    ensures { result ≡ within (S.far space.now origin destination) distance }
{
    check_finite(distance)?;
    let apart = space.distance(origin, destination)?;
    Ok(apart <= distance)
}
