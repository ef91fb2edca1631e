// Lines that are walked point by point.
ghost use Rattle.std.specs.Prelude.{◌≡◌, ℕ, min, List, length, drop};
ghost use Rattle.std.specs.Iterator.{YieldsFirst, item_count};
ghost use Rattle.std.specs.List.{slice_get};
ghost use Rattle.points.specs.Walks.{stepped, fits, neighbours, pairs_from};
ghost use Rattle.points.specs.declared.point.Point.{Point};

use crate::fault::Cause;
use crate::point::Point;

// A line, whatever holds its points. It means a list of points and a position in it; no question changes the
// list, and a step at the end stays there.
pub trait CoordsIter {
    ghost coords: { Self → List Point };

    ghost position: { Self → ℕ };

    fn coords_count(&self) -> usize
        ensures { result ≡ length (coords self.now) };

    // Back to the first point.
    fn rewind(&mut self)
        ensures same { coords self.new ≡ coords self.old }
        ensures first { position self.new ≡ 0 };

    fn current(&self) -> Option<Point>
        ensures { result ≡ slice_get (coords self.now) (position self.now) };

    fn advance(&mut self)
        ensures same { coords self.new ≡ coords self.old }
        ensures next { position self.new ≡ stepped (coords self.old)
            (position self.old) };

    // To the point at this place, or to the end where there is none: no point on the way is asked for. A line that need
    // not step has a way of its own.
    fn seek(&mut self, place: usize)
        ensures same { coords self.new ≡ coords self.old }
        ensures there { position self.new ≡ min place (length (coords self.old)) }
    {
        let steps = place.min(self.coords_count());
        self.rewind();
        for _ in 0..steps {
            self.advance();
        }
    }

    // The points from the first on; the line is walked along.
    final fn coords_iter(&mut self) -> Coords<'_, Self>
        ensures same_reference { result.line.ghost_name ≡ self.entry.ghost_name }
        ensures same { coords result.line.now ≡ coords self.old }
        ensures first { position result.line.now ≡ 0 }
    {
        self.rewind();
        Coords { line: self }
    }

    // The pairs of neighbours, from the first point on.
    final fn lines_iter(&mut self) -> Lines<'_, Self>
        ensures same_reference { result.line.ghost_name ≡ self.entry.ghost_name }
        ensures same { coords result.line.now ≡ coords self.old }
        ensures neighbours { pairs_from result.start
            (drop (position result.line.now) (coords result.line.now)) ≡ neighbours (coords self.old) }
    {
        self.rewind();
        let start = self.current();
        self.advance();
        Lines { start, line: self }
    }
}

// The most points that a line given to a call may have: a place, and an index of a point, has 16 bits.
pub const MOST_POINTS: usize = 65_535;

// How many points the line has, if a call may be given so many.
pub fn given_count<L: CoordsIter>(line: &L) -> Result<usize, Cause>
    ensures { result ≡ fits (length (L.coords line.now)) }
{
    let count = line.coords_count();
    if count <= MOST_POINTS {
        Ok(count)
    } else {
        Err(Cause::NoRoom)
    }
}

// The points of a line from its first on.
#[derive(Drop)]
pub struct Coords<'a, L> {
    line: &'a mut L,
}

impl<L: CoordsIter> Iterator for Coords<'_, L> {
    type Item = Point;

    ghost next_gives = { λ s r t.
        YieldsFirst (λ it. drop (L.position it.line.now) (L.coords it.line.now)) s r t
        × (t.line.ghost_name ≡ s.line.ghost_name)
        × (L.coords t.line.now ≡ L.coords s.line.now) };

    ghost remaining = { item_count (λ it. drop (L.position it.line.now) (L.coords it.line.now)) };

    #[tactic(auto, using(crate::proofs::Walking::walk_steps))]
    fn next(&mut self) -> Option<Point> {
        let point = self.line.current()?;
        self.line.advance();
        Some(point)
    }
}

// The pairs of neighbours of a line, each with the point before and the point after.
#[derive(Drop)]
pub struct Lines<'a, L> {
    start: Option<Point>,
    line: &'a mut L,
}

impl<L: CoordsIter> Iterator for Lines<'_, L> {
    type Item = (Point, Point);

    ghost next_gives = { λ s r t.
        YieldsFirst (λ it. pairs_from it.start
        (drop (L.position it.line.now) (L.coords it.line.now))) s r t
        × (t.line.ghost_name ≡ s.line.ghost_name)
        × (L.coords t.line.now ≡ L.coords s.line.now) };

    ghost remaining = { item_count (λ it. pairs_from it.start
        (drop (L.position it.line.now) (L.coords it.line.now))) };

    #[tactic(auto, using(crate::proofs::Walking::walk_steps))]
    fn next(&mut self) -> Option<(Point, Point)> {
        let start = self.start?;
        let end = self.line.current()?;
        self.line.advance();
        self.start = Some(end);
        Some((start, end))
    }
}
