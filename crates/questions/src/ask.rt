// The answer to a question: the series host's, or that of the Euclidean plane over it.
ghost use Rattle.std.specs.Prelude.{◌≡◌, IfOk, MatchResult};
ghost use Rattle.measures.specs.Length.{length_of};
ghost use Rattle.frechet.specs.Table.{frechet as frechet_of};
ghost use Rattle.questions.specs.Asked.{asked};
ghost use Rattle.questions.specs.Answers.{heard, far, cells_for, answer_to};

use crate::question::Question;
use frechet::distance::frechet_distance;
use hosts::host::Host;
use hosts::series::SeriesHost;
use measures::length::length;
use points::fault::{Cause, Fault};
use points::point::Point;
use points::walk::Forward;
use spaces::euclidean::Euclidean;
use spaces::space::Space;
use std::alloc::{AllocError, Global};

#[derive(Clone, Copy, Debug, PartialEq)]
pub enum Answer {
    Number(f64),
    Point(Point),
    NoAnswer,
    Refused(Cause),
}

impl From<f64> for Answer {
    ghost use Rattle.questions.specs.declared.ask.Answer.TheVariants.{Number};

    ghost from_gives = { λ x answer. answer ≡ Number x };

    fn from(x: f64) -> Answer {
        Answer::Number(x)
    }
}

impl From<Point> for Answer {
    ghost use Rattle.questions.specs.declared.ask.Answer.TheVariants as answers;

    ghost from_gives = { λ p answer. answer ≡ answers.Point p };

    fn from(p: Point) -> Answer {
        Answer::Point(p)
    }
}

// A host's answer: it has none where it refuses.
fn heard(res: Result<f64, Fault>) -> Answer
    ensures { result ≡ heard res }
{
    res.map_or(Answer::NoAnswer, Answer::Number)
}

// A measure's answer, or its refusal.
fn told<T: Into<Answer>>(res: Result<T, Fault>) -> Answer
    ensures { MatchResult res (λ x. T.converts x result) (λ fault. result ≡ Answer.Refused fault.cause) }
{
    match res {
        Ok(value) => value.into(),
        Err(fault) => Answer::Refused(fault.cause),
    }
}

fn plane() -> Euclidean<SeriesHost> {
    Euclidean { host: SeriesHost }
}

fn length_of(points: &[Point]) -> Result<f64, Fault>
    ensures { result ≡ length_of far points.now }
{
    let mut line = Forward::new(points);
    length(&plane(), &mut line)
}

// The crate `job` has the like, for what it keeps; no crate below the two has both that host and this distance.
fn frechet_of(heap: Global, ps: &[Point], qs: &[Point]) -> Result<Result<f64, Fault>, AllocError>
    ensures { IfOk result (λ d. d ≡ (frechet_of far ps.now qs.now
        (cells_for ps.now qs.now)).result) }
{
    // So many cells that their count overflows would find no memory.
    let count = ps.len().min(qs.len()).checked_mul(2).ok_or(AllocError)?;
    let mut cells = vec![in heap; 0.0f64; count]?;
    let mut first = Forward::new(ps);
    let mut second = Forward::new(qs);
    Ok(frechet_distance(&plane(), &mut first, &mut second, &mut cells))
}

pub(crate) fn ask(heap: Global, question: Question) -> Result<Answer, AllocError>
    ensures { IfOk result (λ a. a ≡ answer_to (asked question)) }
{
    Ok(match question {
        Question::Sqrt(x) => heard(SeriesHost.sqrt(x)),
        Question::Hypot(x, y) => heard(SeriesHost.hypot(x, y)),
        Question::Sin(x) => heard(SeriesHost.sin(x)),
        Question::Cos(x) => heard(SeriesHost.cos(x)),
        Question::Asin(x) => heard(SeriesHost.asin(x)),
        Question::Atan2(y, x) => heard(SeriesHost.atan2(y, x)),
        Question::Distance(p, q) => told(plane().distance(p, q)),
        Question::Ratio(ratio, p, q) => told(plane().point_at_ratio_between(p, q, ratio)),
        Question::Along(d, p, q) => told(plane().point_at_distance_between(p, q, d)),
        Question::Length(points) => told(length_of(points.as_slice())),
        Question::Frechet(ps, qs) => told(frechet_of(heap, ps.as_slice(), qs.as_slice())?),
    })
}
