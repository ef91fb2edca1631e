// The Euclidean plane over a host of any make.
ghost use Rattle.std.specs.Prelude.{◌≡◌};
ghost use Rattle.hosts.specs.declared.host.Function.TheVariants.{Hypot};
ghost use Rattle.spaces.specs.Plane as Plane;
ghost use Rattle.spaces.specs.Laws.{plane_distances, plane_ratios, plane_alongs};
ghost use Rattle.std.proofs.Common.{rules};

use crate::space::{Space, check_finite, distance_answer};
use hosts::host::Host;
use points::fault::{Cause, Fault, Layer, ensure};
use points::point::Point;

#[derive(Clone, Copy)]
pub struct Euclidean<H> {
    pub host: H,
}

// A start, and the way from it to the end.
#[derive(Clone, Copy)]
pub struct PlanePair {
    start: Point,
    way: Point,
}

fn admitted(p: Point) -> bool
    ensures { result ≡ Plane.admitted p }
{
    p.x.abs() <= 1000000000.0 && p.y.abs() <= 1000000000.0
}

// Both points are admitted, or the refusal.
fn both_admitted(start: Point, end: Point) -> Result<(), Fault>
    ensures { result ≡ Plane.both_admitted start end }
{
    ensure(
        admitted(start) && admitted(end),
        Cause::NotAdmitted,
        Layer::Space,
    )
}

fn point_answer(p: Point) -> Result<Point, Fault>
    ensures { result ≡ Plane.point_answer p }
{
    ensure(admitted(p), Cause::BadResult, Layer::Space)?;
    Ok(p)
}

fn plane_pair(start: Point, end: Point) -> Result<PlanePair, Fault>
    ensures { result ≡ Plane.paired start end }
{
    both_admitted(start, end)?;
    Ok(PlanePair {
        start,
        way: end - start,
    })
}

fn on_pair(pair: PlanePair, ratio: f64) -> Result<Point, Fault>
    ensures { result ≡ Plane.between pair ratio }
{
    check_finite(ratio)?;
    point_answer(pair.start + pair.way * ratio)
}

impl<H: Host> Space for Euclidean<H> {
    type Pair = PlanePair;

    ghost admits = { λ _. Plane.admitted };

    ghost far = { λ s. Plane.distance (H.Host.meaning s.host Hypot) };

    ghost ratio = { λ _. Plane.at_ratio };

    ghost along = { λ s. Plane.at_distance (H.Host.meaning s.host Hypot) };

    ghost paired = { λ _. Plane.paired };

    ghost between = { λ _. Plane.between };

    ghost distances = { λ s p q. plane_distances (H.Host.meaning s.host Hypot) p q };

    ghost ratios = { λ s p q t. plane_ratios p q t };

    ghost alongs = { λ s p q t. plane_alongs (H.Host.meaning s.host Hypot) p q t };

    ghost pairs = { Prim.search rules };

    fn distance(&self, origin: Point, destination: Point) -> Result<f64, Fault> {
        both_admitted(origin, destination)?;
        let delta = origin - destination;
        let length = self.host.hypot(delta.x, delta.y)?;
        distance_answer(length)
    }

    fn point_at_ratio_between(
        &self,
        start: Point,
        end: Point,
        ratio_from_start: f64,
    ) -> Result<Point, Fault> {
        check_finite(ratio_from_start)?;
        on_pair(plane_pair(start, end)?, ratio_from_start)
    }

    fn point_at_distance_between(
        &self,
        start: Point,
        end: Point,
        distance_from_start: f64,
    ) -> Result<Point, Fault> {
        check_finite(distance_from_start)?;
        both_admitted(start, end)?;
        let diff = end - start;
        let total_distance = self.host.hypot(diff.x, diff.y)?;
        let offset = diff * distance_from_start / total_distance;
        point_answer(start + offset)
    }

    fn pair(&self, start: Point, end: Point) -> Result<PlanePair, Fault> {
        plane_pair(start, end)
    }

    fn point_at_ratio(&self, pair: PlanePair, ratio_from_start: f64) -> Result<Point, Fault> {
        on_pair(pair, ratio_from_start)
    }
}
