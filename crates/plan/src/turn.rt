// One call of a list, through the call that it names.
ghost use Rattle.std.specs.Prelude.{◌≡◌, min, length, take, drop};
ghost use Rattle.plan.specs.Rows.{RowOutcome};
ghost use Rattle.plan.specs.Runs.{Steps};

use crate::comparison::calls::open;
use crate::comparison::{Closed, Comparison, Refused};
use crate::state::State;
use book::call::{Answer, Call};
use points::coords::CoordsIter;
use points::fault::Fault;
use spaces::space::Space;
use table::append::append;
use table::densify::densify;
use table::settle::settle;
use table::undo::undo;
use table::{Head, Record};

// A call while no comparison is open.
fn edit<S: Space, R: CoordsIter + Copy>(
    table: &mut [Record],
    cells: &[f64],
    mut head: Head,
    call: &Call<S, R>,
) -> (State<R>, Answer)
    ensures { Steps S.far S.ratio R.coords table.old cells.now (State.Editing head)
        call.now table.new cells.now result.0 result.1 }
{
    let answer = match call {
        Call::Append(points) => append(table, &mut head, points).into(),
        Call::Densify(space, maximum) => densify(table, &mut head, *space, *maximum).into(),
        Call::Undo => undo(table, &mut head).into(),
        Call::Settle => settle(table, &mut head).into(),
        Call::Open(reference) => {
            return match open(table, head, *reference) {
                Ok(comparison) => (State::Comparing(comparison, **reference), Answer::Done),
                Err(Refused { head, fault }) => (State::Editing(head), Answer::Refused(fault)),
            };
        }
        Call::Row(_, _) | Call::Close => Answer::OutOfTurn,
    };
    (State::Editing(head), answer)
}

// A row that is given the first `count` cells, or all if there are fewer.
fn row_within<S: Space, R: CoordsIter>(
    comparison: &mut Comparison,
    space: &S,
    table: &[Record],
    reference: &mut R,
    cells: &mut [f64],
    count: usize,
) -> Result<(), Fault>
    ensures head { comparison.new.head ≡ comparison.old.head }
    ensures reference { R.coords reference.new ≡ R.coords reference.old }
    ensures rest { drop (min count (length cells.old)) cells.new
        ≡ drop (min count (length cells.old)) cells.old }
    ensures called { RowOutcome (S.far space.now) table.now comparison.old
        (R.coords reference.old) (take (min count (length cells.old)) cells.old)
        comparison.new (take (min count (length cells.old)) cells.new) result }
{
    let given = count.min(cells.len());
    comparison.row(space, table, reference, &mut cells[..given])
}

// A call while a comparison is open.
fn compare<S: Space, R: CoordsIter + Copy>(
    table: &[Record],
    cells: &mut [f64],
    mut comparison: Comparison,
    mut reference: R,
    call: &Call<S, R>,
) -> (State<R>, Answer)
    ensures { Steps S.far S.ratio R.coords table.now cells.old
        (State.Comparing comparison reference) call.now table.now cells.new
        result.0 result.1 }
{
    match call {
        Call::Row(space, count) => {
            let result = row_within(
                &mut comparison,
                *space,
                table,
                &mut reference,
                cells,
                *count,
            );
            (State::Comparing(comparison, reference), result.into())
        }
        Call::Close => {
            let Closed { head, answer } = comparison.close();
            (State::Editing(head), Answer::Closed(answer))
        }
        _ => (State::Comparing(comparison, reference), Answer::OutOfTurn),
    }
}

// Edits and open take a head, row and close a comparison: what the state holds decides what is in turn.
pub(crate) fn turn<S: Space, R: CoordsIter + Copy>(
    table: &mut [Record],
    cells: &mut [f64],
    state: State<R>,
    call: &Call<S, R>,
) -> (State<R>, Answer)
    ensures { Steps S.far S.ratio R.coords table.old cells.old state call.now
        table.new cells.new result.0 result.1 }
{
    match state {
        State::Editing(head) => edit(table, cells, head, call),
        State::Comparing(comparison, reference) => {
            compare(table, cells, comparison, reference, call)
        }
    }
}
