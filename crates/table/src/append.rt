// Append: new points at the end of the line.
ghost use Rattle.std.specs.Prelude.{◌≡◌, Ok, Err};
ghost use Rattle.points.specs.Finite.{first_unfit};
ghost use Rattle.table.specs.Append.{NotFiniteAt, AppendOk, AppendErr};

use crate::cursor::Cursor;
use crate::kept::KeptLine;
use crate::{Head, Record};
use points::fault::{Cause, Fault, Layer, ensure};
use points::point::Point;

// Refuses the first point with a coordinate that is not finite.
fn check_finite(points: &[Point]) -> Result<(), Fault>
    ensures { elim result [
      | Ok _ ↦ first_unfit 0 points.now ≡ 0
      | Err f ↦ NotFiniteAt (first_unfit 0 points.now) f
    ] }
{
    points
        .iter()
        .position(|point| !point.is_finite())
        .map_or(Ok(()), |index| {
            Err(Fault::new(Cause::NotFinite, Layer::Table).at(index + 1))
        })
}

// An append that adds no point is an edit too.
pub fn append(table: &mut [Record], head: &mut Head, points: &[Point]) -> Result<(), Fault>
    ensures { elim result [
      | Ok _ ↦
          AppendOk table.old head.old points.now
          table.new head.new
      | Err f ↦
          AppendErr table.old head.old points.now f
          table.new head.new
    ] }
{
    let line = KeptLine::new(table, head)?;
    check_finite(points)?;
    let edit = head.next_edit()?;
    ensure(
        points.len() <= line.free_count(),
        Cause::NoRoom,
        Layer::Table,
    )?;
    let mut cursor = Cursor::end(table, head);
    for point in points {
        cursor.insert(*point, edit);
    }
    head.newest = edit;
    Ok(())
}
