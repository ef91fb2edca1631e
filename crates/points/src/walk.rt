// A slice of points as a line, walked forward or backward.
ghost use Rattle.std.specs.Prelude.{◌≡◌, cond, reverse};

use crate::coords::CoordsIter;
use crate::point::Point;

// A slice and a position in it, counted from the end at which the walk begins.
#[derive(Clone, Copy)]
pub struct Walk<'a, const REVERSED: bool> {
    points: &'a [Point],
    at: usize,
}

// From the first point to the last.
pub type Forward<'a> = Walk<'a, false>;

// From the last point to the first.
pub type Backward<'a> = Walk<'a, true>;

impl<'a, const REVERSED: bool> Walk<'a, REVERSED> {
    pub fn new(points: &'a [Point]) -> Walk<'a, REVERSED>
        ensures points { result.points.now ≡ points.now }
        ensures first { result.at ≡ 0 }
    {
        Walk { points, at: 0 }
    }
}

impl<const REVERSED: bool> CoordsIter for Walk<'_, REVERSED> {
    ghost coords = { λ line. cond REVERSED (reverse line.points.now) line.points.now };

    ghost position = { λ line. line.at };

    fn coords_count(&self) -> usize {
        self.points.len()
    }

    fn rewind(&mut self) {
        self.at = 0;
    }

    fn current(&self) -> Option<Point> {
        if REVERSED {
            let left = self.points.len().checked_sub(self.at)?;
            self.points[..left].last().copied()
        } else {
            self.points.get(self.at).copied()
        }
    }

    fn advance(&mut self) {
        if self.at < self.points.len() {
            self.at += 1;
        }
    }

    fn seek(&mut self, place: usize) {
        self.at = place.min(self.points.len());
    }
}
