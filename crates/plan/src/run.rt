// A list of calls, run on a table from `format` on.
ghost use Rattle.std.specs.Prelude.{◌≡◌, ◌≤◌, length, drop, Ok, Err};
ghost use Rattle.book.specs.Laws.{CouplingLaw, NearnessLaw};
ghost use Rattle.plan.specs.Runs.{Plays, CanRun, CannotRun, RunOk, RunErr};

use crate::state::State;
use crate::turn::turn;
use book::call::{Answer, Call};
use points::coords::CoordsIter;
use points::fault::{Cause, Fault, Layer, ensure};
use spaces::space::Space;
use table::Record;
use table::format::format;
use table::whole::check_length;

// Each call in turn, with its answer.
fn play<S: Space, R: CoordsIter + Copy>(
    table: &mut [Record],
    cells: &mut [f64],
    mut state: State<R>,
    calls: &[Call<S, R>],
    answers: &mut [Answer],
) -> State<R>
    requires { length calls.now ≤ length answers.old }
    ensures book { Plays S.far S.ratio R.coords table.old cells.old state
        calls.now table.new cells.new result answers.new }
    ensures rest { drop (length calls.now) answers.new
        ≡ drop (length calls.now) answers.old }
{
    for (k, call) in calls.iter().enumerate() {
        let (next, answer) = turn(table, cells, state, call);
        // By index, as of what a `zip` with `iter_mut` writes no proof knows anything.
        answers[k] = answer;
        state = next;
    }
    state
}

// Whether the table may be formatted, and whether there is room for the answers.
fn can_run(table: &[Record], calls: usize, room: usize) -> Result<(), Fault>
    ensures { elim result [
      | Ok _ ↦ CanRun table.now calls room
      | Err f ↦ CannotRun table.now calls room f
    ] }
{
    check_length(table)?;
    ensure(calls <= room, Cause::NoRoom, Layer::Table)
}

// Apart from `run`, whose laws speak of all lists at once, and of no step of this one.
fn run_from_format<S: Space, R: CoordsIter + Copy>(
    table: &mut [Record],
    cells: &mut [f64],
    calls: &[Call<S, R>],
    answers: &mut [Answer],
) -> Result<State<R>, Fault>
    ensures { elim result [
      | Ok s ↦
          RunOk S.far S.ratio R.coords table.old cells.old calls.now
          answers.old table.new cells.new s answers.new
      | Err f ↦
          RunErr (length calls.now) f table.old cells.old answers.old
          table.new cells.new answers.new
    ] }
{
    can_run(table, calls.len(), answers.len())?;
    let head = format(table)?;
    Ok(play(table, cells, State::Editing(head), calls, answers))
}

// Formats the table and makes each call of the list. The answers come in order, and what is left of an open
// comparison is handed back: it has to be closed.
pub fn run<S: Space, R: CoordsIter + Copy>(
    table: &mut [Record],
    cells: &mut [f64],
    calls: &[Call<S, R>],
    answers: &mut [Answer],
) -> Result<State<R>, Fault>
    ensures book { elim result [
      | Ok s ↦
          RunOk S.far S.ratio R.coords table.old cells.old calls.now
          answers.old table.new cells.new s answers.new
      | Err f ↦
          RunErr (length calls.now) f table.old cells.old answers.old
          table.new cells.new answers.new
    ] }
    ensures couplings { CouplingLaw S.far S.ratio R.coords (length table.old)
        (length cells.old) calls.now }
    ensures nearness { NearnessLaw S.far S.ratio R.coords }
{
    run_from_format(table, cells, calls, answers)
}
