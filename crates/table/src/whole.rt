// Whether a table is whole for a head. Links and edit numbers are read, coordinates are not.
ghost use Rattle.std.specs.Prelude.{◌≡◌, true, Ok, Err};
ghost use Rattle.table.specs.Chains.{Chained, next_in_chain};
ghost use Rattle.table.specs.Whole.{Sized, Whole, Checked, BadLength, BadTable};

use crate::{FREE, Head, LAST_EDIT, MOST_RECORDS, Record};
use points::fault::{Cause, Fault, Layer, ensure};

// Where a chain goes on behind the record, if it can be one of a chain with edit numbers from `least` to `most`.
fn next_in_chain(table: &[Record], here: u16, least: u8, most: u8) -> Option<u16>
    ensures { result ≡ next_in_chain table.now least most here }
{
    table
        .get(usize::from(here))
        .filter(|record| here > 0 && (least..=most).contains(&record.edit))
        .map(|record| record.next)
}

// Whether the chain from `start` ends after exactly `n` records, each with an edit number from `least` to
// `most`. It takes no more than `n` steps, whatever the links are.
fn ends_after(table: &[Record], start: u16, n: usize, least: u8, most: u8) -> bool
    ensures sound { result ≡ true → Chained table.now least most n start }
    ensures complete { Chained table.now least most n start → result ≡ true }
{
    (0..n).try_fold(start, |here, _| next_in_chain(table, here, least, most)) == Some(0)
}

// Whether the links and edit numbers keep the rules.
pub fn is_whole(table: &[Record], head: &Head) -> bool
    ensures sound { result ≡ true → Whole table.now head.now }
    ensures complete { Whole table.now head.now → result ≡ true }
{
    let n = table.len();
    let count = usize::from(head.count);
    count < n
        && head.newest <= LAST_EDIT
        && ends_after(table, head.first, count, 0, head.newest)
        && ends_after(table, head.free, n - 1 - count, FREE, FREE)
}

// Whether a table may have so many records.
pub fn check_length(table: &[Record]) -> Result<(), Fault>
    ensures { elim result [
      | Ok _ ↦ Sized table.now
      | Err f ↦ BadLength table.now f
    ] }
{
    ensure(
        (2..=MOST_RECORDS).contains(&table.len()),
        Cause::TableLength,
        Layer::Table,
    )
}

// What every call on a formatted table asks first.
pub fn check(table: &[Record], head: &Head) -> Result<(), Fault>
    ensures { elim result [
      | Ok _ ↦ Checked table.now head.now
      | Err f ↦ BadTable table.now head.now f
    ] }
{
    check_length(table)?;
    ensure(is_whole(table, head), Cause::TableNotWhole, Layer::Table)
}
