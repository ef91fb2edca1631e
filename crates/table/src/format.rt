// A new table: all records free.
ghost use Rattle.std.specs.Prelude.{◌≡◌, ◌<◌, ◌≤◌, Ok, Err};
ghost use Rattle.table.specs.Format.{follower, InOrder, FormatOk, FormatErr};
ghost use Rattle.table.specs.Numbers.{most_records};
ghost use Rattle.table.specs.Whole.{Sized};

use crate::whole::check_length;
use crate::{Head, Record};
use points::fault::Fault;

// The index after `index` in a table of `n` records, or 0 after the last.
fn next_in_order(index: usize, n: usize) -> u16
    requires inside { index < n }
    requires few { n ≤ most_records }
    ensures { result ≡ follower n index }
{
    if index + 1 < n { (index + 1) as u16 } else { 0 }
}

// Chains the records as free, each on to the next.
fn chain_free(table: &mut [Record])
    requires { Sized table.old }
    ensures { InOrder table.new }
{
    let n = table.len();
    for (index, record) in table.iter_mut().enumerate() {
        *record = Record::free(next_in_order(index, n));
    }
}

pub fn format(table: &mut [Record]) -> Result<Head, Fault>
    ensures { elim result [
      | Ok h ↦ FormatOk table.old table.new h
      | Err f ↦ FormatErr table.old table.new f
    ] }
{
    check_length(table)?;
    chain_free(table);
    table[0] = Record::default();
    // No `Default` makes a head: there is one to a table, and it comes from here.
    Ok(Head {
        first: 0,
        free: 1,
        count: 0,
        newest: 0,
    })
}
