// One row of two lines by itself, for a comparison that is asked row by row.
ghost use Rattle.std.specs.Prelude.{◌≡◌, ◌*◌, ◌<◌, ◌≤◌, length, slice_index_or};
ghost use Rattle.std.specs.List.{slice_get};
ghost use Rattle.frechet.specs.Next.{row_count, row_allowed, next_row};
ghost use Rattle.frechet.specs.Row.{row_of, written, row_start, row_before};
ghost use Rattle.frechet.specs.Theorem.{nowhere};

use crate::distance::room;
use crate::row::row;
use points::coords::CoordsIter;
use points::fault::{Cause, Fault, Layer, in_layer};
use points::point::Point;
use spaces::space::Space;

// How many rows two lines have: one for each point of the longer, and none where a line is empty.
pub fn row_count(count_1: usize, count_2: usize) -> usize
    ensures { result ≡ row_count count_1 count_2 }
{
    if count_1 == 0 || count_2 == 0 {
        0
    } else {
        count_1.max(count_2)
    }
}

// What is known beforehand: whether row k is left, and whether there are cells for it.
fn allow_row(k: usize, count_1: usize, count_2: usize, cells: usize) -> Result<(), Cause>
    ensures { result ≡ row_allowed k count_1 count_2 cells }
{
    if k < row_count(count_1, count_2) {
        room(cells, count_1, count_2)
    } else {
        Err(Cause::NoRowLeft)
    }
}

// The point at place k, if there is one. `coords_iter().nth(k)` would ask for each point before it too, and a line of a
// caller's make may work for a point.
#[tactic(auto, using(crate::proofs::Seeking::nth_least))]
fn seek<L: CoordsIter>(line: &mut L, k: usize) -> Option<Point>
    ensures line { L.coords line.new ≡ L.coords line.old }
    ensures found { result ≡ slice_get (L.coords line.old) k }
{
    line.seek(k);
    line.current()
}

// Row k of a longer and a shorter line.
fn row_at<S: Space, L: CoordsIter, M: CoordsIter>(
    cells: &mut [f64],
    k: usize,
    longer: &mut L,
    shorter: &mut M,
    space: &S,
) -> Result<Option<f64>, Fault>
    requires room { 2 * length (M.CoordsIter.coords shorter.old) ≤ length cells.old }
    requires left { k < length (L.CoordsIter.coords longer.old) }
    ensures longer { L.CoordsIter.coords longer.new ≡ L.CoordsIter.coords
        longer.old }
    ensures shorter { M.CoordsIter.coords shorter.new ≡ M.CoordsIter.coords
        shorter.old }
    ensures cells { cells.new
        ≡ written (row_start k (length (M.CoordsIter.coords shorter.old)))
        (row_of (S.far space.now (slice_index_or (L.CoordsIter.coords longer.old) k nowhere))
        (row_before k (length (M.CoordsIter.coords shorter.old)) cells.old)
        (M.CoordsIter.coords shorter.old)).cells cells.old }
    ensures outcome { result
        ≡ (row_of (S.far space.now (slice_index_or (L.CoordsIter.coords longer.old) k nowhere))
        (row_before k (length (M.CoordsIter.coords shorter.old)) cells.old)
        (M.CoordsIter.coords shorter.old)).outcome }
{
    let p = seek(longer, k).unwrap();
    row(cells, k, p, shorter, space)
}

// Row k of two lines, in its half of the cells under row k - 1 in the other half, and its last cell. The fault
// of a row that cannot be asked is of the caller's layer. What was written stays, where the row is refused too.
pub fn next_row<S: Space, A: CoordsIter, B: CoordsIter>(
    space: &S,
    ls_1: &mut A,
    ls_2: &mut B,
    k: usize,
    cells: &mut [f64],
    layer: Layer,
) -> Result<Option<f64>, Fault>
    ensures first { A.CoordsIter.coords ls_1.new ≡ A.CoordsIter.coords
        ls_1.old }
    ensures second { B.CoordsIter.coords ls_2.new ≡ B.CoordsIter.coords
        ls_2.old }
    ensures cells { cells.new ≡ (next_row (S.far space.now) layer k
        (A.CoordsIter.coords ls_1.old) (B.CoordsIter.coords ls_2.old)
        cells.old).cells }
    ensures last { result ≡ (next_row (S.far space.now) layer k
        (A.CoordsIter.coords ls_1.old) (B.CoordsIter.coords ls_2.old)
        cells.old).last }
{
    let count_1 = ls_1.coords_count();
    let count_2 = ls_2.coords_count();
    in_layer(allow_row(k, count_1, count_2, cells.len()), layer)?;
    if count_1 <= count_2 {
        row_at(cells, k, ls_2, ls_1, space)
    } else {
        row_at(cells, k, ls_1, ls_2, space)
    }
}
