// Settle: the line stays, and none of its edits can be taken back any more.
ghost use Rattle.std.specs.Prelude.{Ok, Err};
ghost use Rattle.table.specs.Settle.{SettleOk, SettleErr};

use crate::cursor::Cursor;
use crate::whole::check;
use crate::{Head, Record};
use points::fault::Fault;

pub fn settle(table: &mut [Record], head: &mut Head) -> Result<(), Fault>
    ensures { elim result [
      | Ok _ ↦ SettleOk table.old head.old table.new head.new
      | Err f ↦ SettleErr table.old head.old f table.new head.new
    ] }
{
    check(table, head)?;
    let count = head.count;
    let mut cursor = Cursor::start(table, head);
    // No iterator lends the records, as an edit writes where it walks.
    for _ in 0..count {
        cursor.renumber(0);
    }
    head.newest = 0;
    Ok(())
}
