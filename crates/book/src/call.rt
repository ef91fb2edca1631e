// The calls on a kept line as data, and their answers.
ghost use Rattle.std.specs.Prelude.{◌≡◌};
ghost use Rattle.book.specs.Calls.{edit_answer};

use points::fault::Fault;
use points::point::Point;

// A call, with what its caller hands in. A row is given so many cells of the row buffer.
#[derive_where(Clone, Copy)]
pub enum Call<'a, S, R> {
    Append(&'a [Point]),
    Densify(&'a S, f64),
    Undo,
    Settle,
    Open(&'a R),
    Row(&'a S, usize),
    Close,
}

// As code, no edit and no open can be written while a comparison is open, and no row and no close while none is.
// As data such a call is out of turn.
#[derive(Clone, Copy, Debug, PartialEq)]
pub enum Answer {
    Done,
    Refused(Fault),
    Closed(Option<f64>),
    OutOfTurn,
}

// An edit, an open and a row are done or refused.
impl From<Result<(), Fault>> for Answer {
    ghost from_gives = { λ res answer. answer ≡ edit_answer res };

    fn from(res: Result<(), Fault>) -> Answer {
        match res {
            Ok(()) => Answer::Done,
            Err(fault) => Answer::Refused(fault),
        }
    }
}
