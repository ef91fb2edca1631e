// Undo: the newest edit is taken back.
ghost use Rattle.std.specs.Prelude.{Ok, Err};
ghost use Rattle.table.specs.Undo.{UndoOk, UndoErr};

use crate::cursor::Cursor;
use crate::whole::check;
use crate::{Head, Record};
use points::fault::{Cause, Fault, Layer, ensure};

pub fn undo(table: &mut [Record], head: &mut Head) -> Result<(), Fault>
    ensures { elim result [
      | Ok _ ↦ UndoOk table.old head.old table.new head.new
      | Err f ↦ UndoErr table.old head.old f table.new head.new
    ] }
{
    check(table, head)?;
    let newest = head.newest;
    ensure(newest > 0, Cause::NothingToUndo, Layer::Table)?;
    let count = head.count;
    let mut cursor = Cursor::start(table, head);
    // No iterator lends the records, as an edit writes where it walks.
    for _ in 0..count {
        if cursor.is_of(newest) {
            cursor.remove();
        } else {
            cursor.step();
        }
    }
    head.newest = newest - 1;
    Ok(())
}
