// All rows of the table, one after the other.
ghost use Rattle.std.specs.Prelude.{◌≡◌, ◌*◌, ◌≤◌, [], length, None};
ghost use Rattle.frechet.specs.Table.{rows_from};

use crate::row::row;
use points::coords::CoordsIter;
use points::fault::Fault;
use spaces::space::Space;

// A row for each point of the longer line, and the last cell of the last.
#[tactic(auto, using(crate::proofs::Tabling::row_done))]
pub(crate) fn rows<S: Space, L: CoordsIter, M: CoordsIter>(
    cells: &mut [f64],
    longer: &mut L,
    shorter: &mut M,
    space: &S,
) -> Result<Option<f64>, Fault>
    requires { (2 * length (M.CoordsIter.coords shorter.old) ≤ length cells.old) × (length
        (L.CoordsIter.coords longer.old) ≤ 65535) }
    ensures longer { L.CoordsIter.coords longer.new ≡ L.CoordsIter.coords
        longer.old }
    ensures shorter { M.CoordsIter.coords shorter.new ≡ M.CoordsIter.coords
        shorter.old }
    ensures cells { cells.new ≡ (rows_from (S.far space.now) 0 [] None
        (L.CoordsIter.coords longer.old) (M.CoordsIter.coords shorter.old)
        cells.old).cells }
    ensures last { result ≡ (rows_from (S.far space.now) 0 [] None
        (L.CoordsIter.coords longer.old) (M.CoordsIter.coords shorter.old)
        cells.old).last }
{
    let mut last = None;
    for (k, p) in longer.coords_iter().enumerate() {
        last = row(cells, k, p, shorter, space)?;
    }
    Ok(last)
}
