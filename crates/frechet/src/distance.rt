// The discrete Fréchet distance of two lines of any make, in a space of any make.
ghost use Rattle.std.specs.Prelude.{◌≡◌, length};
ghost use Rattle.frechet.specs.Table.{frechet, allowed, room_for};
ghost use Rattle.frechet.specs.Theorem.{LeastOverCouplings, NearnessPasses, WhateverCellsHeld};

use crate::table::rows;
use points::coords::{CoordsIter, given_count};
use points::fault::{Cause, Fault, Layer, in_layer};
use spaces::space::Space;

pub(crate) fn room(cells: usize, count_1: usize, count_2: usize) -> Result<(), Cause>
    ensures { result ≡ room_for cells count_1 count_2 }
{
    if count_1.min(count_2) <= cells / 2 {
        Ok(())
    } else {
        Err(Cause::NoRoom)
    }
}

// What is known beforehand: how long the lines may be, and how many cells there are.
fn allow<A: CoordsIter, B: CoordsIter>(ls_1: &A, ls_2: &B, cells: usize) -> Result<(), Cause>
    ensures { result ≡ allowed (length (A.CoordsIter.coords ls_1.now))
        (length (B.CoordsIter.coords ls_2.now)) cells }
{
    let count_1 = given_count(ls_1)?;
    let count_2 = given_count(ls_2)?;
    room(cells, count_1, count_2)
}

// Apart from `frechet_distance`, whose theorems speak of all lines at once, and of no step of this one.
// The longer line goes down the rows and the shorter along them, so that two rows of the shorter suffice.
fn compare<S: Space, A: CoordsIter, B: CoordsIter>(
    space: &S,
    ls_1: &mut A,
    ls_2: &mut B,
    cells: &mut [f64],
) -> Result<f64, Fault>
    ensures first { A.CoordsIter.coords ls_1.new ≡ A.CoordsIter.coords
        ls_1.old }
    ensures second { B.CoordsIter.coords ls_2.new ≡ B.CoordsIter.coords
        ls_2.old }
    ensures cells { cells.new ≡ (frechet (S.far space.now)
        (A.CoordsIter.coords ls_1.old) (B.CoordsIter.coords ls_2.old)
        cells.old).cells }
    ensures result { result ≡ (frechet (S.far space.now) (A.CoordsIter.coords ls_1.old)
        (B.CoordsIter.coords ls_2.old) cells.old).result }
{
    in_layer(allow(ls_1, ls_2, cells.len()), Layer::Line)?;
    let count_1 = ls_1.coords_count();
    let count_2 = ls_2.coords_count();
    if count_1 == 0 || count_2 == 0 {
        return Ok(0.0);
    }
    let last = if count_1 <= count_2 {
        rows(cells, ls_2, ls_1, space)?
    } else {
        rows(cells, ls_1, ls_2, space)?
    };
    Ok(last.unwrap_or(0.0))
}

// The least, over all couplings of the two lines, of the distance of a coupling's farthest pair. The rows need
// two cells for each point of the shorter line. What they wrote stays, where the call is refused too.
pub fn frechet_distance<S: Space, A: CoordsIter, B: CoordsIter>(
    space: &S,
    ls_1: &mut A,
    ls_2: &mut B,
    cells: &mut [f64],
) -> Result<f64, Fault>
    ensures first { A.CoordsIter.coords ls_1.new ≡ A.CoordsIter.coords
        ls_1.old }
    ensures second { B.CoordsIter.coords ls_2.new ≡ B.CoordsIter.coords
        ls_2.old }
    ensures cells { cells.new ≡ (frechet (S.far space.now)
        (A.CoordsIter.coords ls_1.old) (B.CoordsIter.coords ls_2.old)
        cells.old).cells }
    ensures result { result ≡ (frechet (S.far space.now) (A.CoordsIter.coords ls_1.old)
        (B.CoordsIter.coords ls_2.old) cells.old).result }
    ensures fresh { WhateverCellsHeld (S.far space.now)
        (A.CoordsIter.coords ls_1.old) (B.CoordsIter.coords ls_2.old)
        cells.old result }
    ensures couplings { LeastOverCouplings (S.far space.now)
        (A.CoordsIter.coords ls_1.old) (B.CoordsIter.coords ls_2.old) result }
    ensures nearness { NearnessPasses (S.far space.now) }
{
    compare(space, ls_1, ls_2, cells)
}
