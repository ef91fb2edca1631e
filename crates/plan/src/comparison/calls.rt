// Open, row and close.
ghost use Rattle.std.specs.Prelude.{◌≡◌, ◌+◌, ◌^◌, ◌<◌, ◌≤◌, ◌⊎◌, length, Ok, Err};
ghost use Rattle.table.specs.Whole.{BadTable};
ghost use Rattle.plan.specs.Opening.{Counted, TooLong, OpenOk, OpenErr};
ghost use Rattle.plan.specs.Rows.{
  progress,
  rows_left,
  same_count,
  one_more,
  row_called,
  Calls,
  RowOutcome,
  answer_of,
  closes,
};

use crate::comparison::{Closed, Comparison, Refused};
use frechet::next::{next_row, row_count};
use points::coords::{CoordsIter, given_count};
use points::fault::{Cause, Fault, Layer, in_layer};
use spaces::space::Space;
use table::chain::Chain;
use table::whole::check;
use table::{Head, Record};

// The reference's count, on a table that is whole.
fn reference_count<R: CoordsIter>(
    table: &[Record],
    head: &Head,
    reference: &R,
) -> Result<usize, Fault>
    ensures { elim result [
      | Ok n ↦ Counted table.now head.now (length (R.coords reference.now)) n
      | Err f ↦
          BadTable table.now head.now f
          ⊎ TooLong table.now head.now (length (R.coords reference.now)) f
    ] }
{
    check(table, head)?;
    in_layer(given_count(reference), Layer::Table)
}

// Begins a comparison with no rows. Of the reference its count is kept, and nothing else.
pub fn open<R: CoordsIter>(
    table: &[Record],
    head: Head,
    reference: &R,
) -> Result<Comparison, Refused>
    ensures { elim result [
      | Ok c ↦ OpenOk table.now head (length (R.coords reference.now)) c
      | Err e ↦ OpenErr table.now head (length (R.coords reference.now)) e
    ] }
{
    match reference_count(table, &head, reference) {
        Ok(count) => Ok(Comparison {
            head,
            reference: count,
            done: 0,
            last: None,
        }),
        Err(fault) => Err(Refused { head, fault }),
    }
}

// What a comparison answers of whose rows so many were accepted.
fn answer_of(rows: usize, done: usize, last: Option<f64>) -> Option<f64>
    ensures { result ≡ answer_of rows done last }
{
    if done < rows {
        None
    } else if rows == 0 {
        Some(0.0)
    } else {
        last
    }
}

impl Comparison {
    // How many rows remain.
    pub fn rows_left(&self) -> usize
        ensures { result ≡ rows_left self.now.head.count (progress self.now) }
    {
        row_count(self.head.count(), self.reference).saturating_sub(self.done)
    }

    fn check_count(&self, reference: usize) -> Result<(), Cause>
        ensures { result ≡ same_count reference (progress self.now) }
    {
        if reference == self.reference {
            Ok(())
        } else {
            Err(Cause::ReferenceChanged)
        }
    }

    // One row more was accepted, and this is its last cell.
    fn count_row(&mut self, last: Option<f64>)
        requires { self.old.done + 1 < 2 ^ 64 }
        ensures head { self.new.head ≡ self.old.head }
        ensures counted { progress self.new ≡ one_more (progress self.old) last }
    {
        self.done += 1;
        self.last = last;
    }

    // The next row, with the kept line as any line, whose count the head keeps in 16 bits.
    fn row_of<S: Space, K: CoordsIter, R: CoordsIter>(
        &mut self,
        space: &S,
        kept: &mut K,
        reference: &mut R,
        cells: &mut [f64],
    ) -> Result<(), Fault>
        requires { length (K.CoordsIter.coords kept.old) ≤ 65535 }
        ensures head { self.new.head ≡ self.old.head }
        ensures reference { R.CoordsIter.coords reference.new ≡ R.CoordsIter.coords
            reference.old }
        ensures called { Calls (row_called (S.far space.now) (progress self.old)
            (K.CoordsIter.coords kept.old) (R.CoordsIter.coords reference.old)
            cells.old) (progress self.new) cells.new result }
    {
        in_layer(self.check_count(reference.coords_count()), Layer::Table)?;
        let last = next_row(space, kept, reference, self.done, cells, Layer::Table)?;
        self.count_row(last);
        Ok(())
    }

    // The next row of the kept line and the reference, in its half of the cells. A row that is refused at a cell
    // leaves the cells before it written, and is not counted.
    #[tactic(auto, using(table::proofs::Lines::line_count))]
    pub fn row<S: Space, R: CoordsIter>(
        &mut self,
        space: &S,
        table: &[Record],
        reference: &mut R,
        cells: &mut [f64],
    ) -> Result<(), Fault>
        ensures head { self.new.head ≡ self.old.head }
        ensures reference { R.coords reference.new ≡ R.coords reference.old }
        ensures called { RowOutcome (S.far space.now) table.now self.old
            (R.coords reference.old) cells.old self.new cells.new result }
    {
        check(table, &self.head)?;
        let mut kept = Chain::new(table, &self.head);
        self.row_of(space, &mut kept, reference, cells)
    }

    // Gives the head back, with the last cell of the last row, zero where there are no rows, or none while rows
    // remain.
    pub fn close(self) -> Closed
        ensures head { result.head ≡ self.head }
        ensures answer { result.answer ≡ closes self.head.count (progress self) }
    {
        let Comparison {
            head,
            reference,
            done,
            last,
        } = self;
        let rows = row_count(head.count(), reference);
        Closed {
            head,
            answer: answer_of(rows, done, last),
        }
    }
}
