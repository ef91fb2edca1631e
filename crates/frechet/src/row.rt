// One row of the table: from a point of the longer line to each point of the shorter.
ghost use Rattle.std.specs.Prelude.{◌≡◌, ◌*◌, ◌≤◌, length};
ghost use Rattle.frechet.specs.Row.{row_of, over, written, row_start, row_before};

use crate::cell::cell;
use points::coords::CoordsIter;
use points::fault::{Fault, at_place};
use points::point::Point;
use spaces::space::Space;

// Writes a row under the row before, which is empty at the first, and answers its last cell.
fn fill<S: Space, L: CoordsIter>(
    cells: &mut [f64],
    before: &[f64],
    p: Point,
    shorter: &mut L,
    space: &S,
) -> Result<Option<f64>, Fault>
    requires { length (L.coords shorter.old) ≤ length cells.old }
    ensures line { L.coords shorter.new ≡ L.coords shorter.old }
    ensures cells { cells.new ≡ over (row_of (S.far space.now p) before.now (L.coords shorter.old)).cells cells.old }
    ensures outcome { result ≡ (row_of (S.far space.now p) before.now (L.coords shorter.old)).outcome }
{
    let mut diagonal = None;
    let mut left = None;
    for (j, q) in shorter.coords_iter().enumerate() {
        let distance = at_place(space.distance(p, q), j + 1)?;
        let up = before.get(j).copied();
        let value = cell(distance, up, diagonal, left);
        // By index, as of what a `zip` with `iter_mut` writes no proof knows anything.
        cells[j] = value;
        diagonal = up;
        left = Some(value);
    }
    Ok(left)
}

// Row k, in its half of the cells; the other half holds row k - 1. The room is asked of the callers, who have just
// refused too few cells: a value that kept it would have to hold the line too, which is walked meanwhile.
pub(crate) fn row<S: Space, L: CoordsIter>(
    cells: &mut [f64],
    k: usize,
    p: Point,
    shorter: &mut L,
    space: &S,
) -> Result<Option<f64>, Fault>
    requires { 2 * length (L.coords shorter.old) ≤ length cells.old }
    ensures line { L.coords shorter.new ≡ L.coords shorter.old }
    ensures cells { cells.new ≡ written (row_start k (length (L.coords shorter.old)))
        (row_of (S.far space.now p) (row_before k (length (L.coords shorter.old))
        cells.old) (L.coords shorter.old)).cells cells.old }
    ensures outcome { result ≡ (row_of (S.far space.now p)
        (row_before k (length (L.coords shorter.old)) cells.old)
        (L.coords shorter.old)).outcome }
{
    let s = shorter.coords_count();
    let (even, odd) = cells.split_at_mut(s);
    if k == 0 {
        fill(even, &[], p, shorter, space)
    } else if k % 2 == 0 {
        fill(even, &odd[..s], p, shorter, space)
    } else {
        fill(odd, even, p, shorter, space)
    }
}
