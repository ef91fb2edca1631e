// Examples of the kept line, of its comparison with a reference, and of lists of calls.
use crate::at;
use book::call::{Answer, Call};
use hosts::series::SeriesHost;
use plan::comparison::calls::open;
use plan::comparison::{Closed, Refused};
use plan::run::run;
use plan::state::State;
use points::fault::{Cause, Fault, Layer};
use points::point::Point;
use points::walk::Forward;
use spaces::euclidean::Euclidean;
use std::test::Fail;
use table::append::append;
use table::format::format;
use table::undo::undo;
use table::{Head, Record};

fn blank() -> Record {
    Record {
        x: 7.0,
        y: 7.0,
        next: 9,
        edit: 9,
    }
}

// A refusal of a call that takes a table.
fn refused(cause: Cause) -> Answer {
    Answer::Refused(Fault::new(cause, Layer::Table))
}

type Plane = Euclidean<SeriesHost>;

// A list that ends with an open comparison; what close then answers. One lifetime serves all that it borrows.
fn answers_of<'a>(
    table: &mut [Record],
    answers: &mut [Answer],
    plane: &'a Plane,
    kept: &'a [Point],
    more: &'a [Point],
    reference: &'a Forward<'a>,
) -> Result<Option<f64>, Fail> {
    let calls = [
        Call::Undo,
        Call::Append(kept),
        Call::Row(plane, 2),
        Call::Open(reference),
        Call::Append(more),
        Call::Row(plane, 1),
        Call::Row(plane, 2),
        Call::Row(plane, 9),
        Call::Row(plane, 9),
        Call::Close,
        Call::Append(more),
        Call::Densify(plane, 1.0),
        Call::Densify(plane, 0.5),
        Call::Undo,
        Call::Settle,
        Call::Undo,
        Call::Open(reference),
    ];
    let mut cells = [0.0; 4];
    match run(table, &mut cells, &calls, answers)? {
        State::Editing(_) => Err(Fail::new("no comparison was left open")),
        State::Comparing(comparison, _) => {
            let Closed { head: _, answer } = comparison.close();
            Ok(answer)
        }
    }
}

#[test]
fn a_list_of_calls_is_answered_in_order(rt: HostRuntime) -> Result<(), Fail> {
    let mut table = [blank(); 6];
    let mut answers = [Answer::Done; 17];
    let plane = Euclidean { host: SeriesHost };
    let one = [at(0.0, 0.0)];
    let more = [at(3.0, 0.0)];
    let both = [at(0.0, 0.0), at(3.0, 0.0)];
    let reference = Forward::new(&both);
    let left = answers_of(&mut table, &mut answers, &plane, &one, &more, &reference)?;
    assert!(rt; left.is_none());
    let expected = [
        refused(Cause::NothingToUndo),
        Answer::Done,
        Answer::OutOfTurn,
        Answer::Done,
        Answer::OutOfTurn,
        refused(Cause::NoRoom),
        Answer::Done,
        Answer::Done,
        refused(Cause::NoRowLeft),
        Answer::Closed(Some(3.0)),
        Answer::Done,
        Answer::Done,
        refused(Cause::NoRoom),
        Answer::Done,
        Answer::Done,
        refused(Cause::NothingToUndo),
        Answer::Done,
    ];
    assert_eq!(rt; answers, expected);
    Ok(())
}

fn kept(table: &mut [Record], points: &[Point]) -> Result<Head, Fault> {
    let mut head = format(table)?;
    append(table, &mut head, points)?;
    Ok(head)
}

#[test]
fn a_chain_that_runs_in_a_circle_is_refused(rt: HostRuntime) -> Result<(), Fail> {
    let mut table = [blank(); 6];
    let points = [at(0.0, 0.0), at(1.0, 0.0)];
    let mut head = kept(&mut table, &points)?;
    table[2].next = 1;
    let circle = table;
    let refused = undo(&mut table, &mut head);
    assert!(rt; refused.is_err());
    assert_eq!(rt; table, circle);
    match open(&table, head, &Forward::new(&points)) {
        Ok(comparison) => {
            let Closed { head: _, answer: _ } = comparison.close();
            Err(Fail::new("a circle was opened"))
        }
        Err(Refused { head, fault }) => {
            assert_eq!(rt; fault.cause, Cause::TableNotWhole);
            assert!(rt; head.count() == 2);
            Ok(())
        }
    }
}

#[test]
fn a_reference_of_another_count_is_refused(rt: HostRuntime) -> Result<(), Fail> {
    let mut table = [blank(); 6];
    let points = [at(0.0, 0.0), at(1.0, 0.0)];
    let head = kept(&mut table, &points)?;
    let plane = Euclidean { host: SeriesHost };
    let mut cells = [0.0; 4];
    match open(&table, head, &Forward::new(&points)) {
        Err(_) => Err(Fail::new("an open was refused")),
        Ok(mut comparison) => {
            let shorter = &points[0..1];
            let row = comparison.row(&plane, &table, &mut Forward::new(shorter), &mut cells);
            let left = comparison.rows_left();
            let Closed { head: _, answer } = comparison.close();
            assert!(rt; left == 2 && answer.is_none());
            assert_eq!(rt;
                row.map_err(|fault| fault.cause),
                Err(Cause::ReferenceChanged)
            );
            Ok(())
        }
    }
}
