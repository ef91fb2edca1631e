// The question that a line spells.
ghost use Rattle.std.specs.Prelude.{◌≡◌, false, IfOk};
ghost use Rattle.questions.specs.Asked.{asked};
ghost use Rattle.questions.specs.Spelling.{Spells};
ghost use Rattle.questions.specs.Reading.{Reads, HostCall, PlaneCall, NoCall, SpellsAt};

use crate::arguments::{frechet_question, numbers, points_of};
use crate::name::split_name;
use crate::question::Question;
use points::point::Point;
use std::alloc::{AllocError, Global};
use text::line::Line;

fn host_question(call: &str, numbers: &[f64]) -> Option<Question>
    ensures { Reads asked (HostCall call.now numbers.now) result }
{
    match (call, numbers) {
        ("sqrt", [x]) => Some(Question::Sqrt(*x)),
        ("hypot", [x, y]) => Some(Question::Hypot(*x, *y)),
        ("sin", [x]) => Some(Question::Sin(*x)),
        ("cos", [x]) => Some(Question::Cos(*x)),
        ("asin", [x]) => Some(Question::Asin(*x)),
        ("atan2", [y, x]) => Some(Question::Atan2(*y, *x)),
        _ => None,
    }
}

fn plane_question(heap: Global, call: &str, numbers: &[f64]) -> Result<Option<Question>, AllocError>
    ensures { IfOk result (Reads asked (PlaneCall call.now numbers.now)) }
{
    Ok(match (call, numbers) {
        ("distance", [px, py, qx, qy]) => {
            Some(Question::Distance(Point { x: *px, y: *py }, Point { x: *qx, y: *qy }))
        }
        ("ratio", [ratio, px, py, qx, qy]) => {
            Some(Question::Ratio(*ratio, Point { x: *px, y: *py }, Point { x: *qx, y: *qy }))
        }
        ("along", [d, px, py, qx, qy]) => {
            Some(Question::Along(*d, Point { x: *px, y: *py }, Point { x: *qx, y: *qy }))
        }
        ("length", _) => points_of(heap, numbers)?.map(Question::Length),
        _ => None,
    })
}

// Whether this names a call that takes numbers and nothing else.
fn takes_numbers(family: &str, call: &str) -> bool
    ensures { result ≡ false → NoCall family.now call.now }
{
    match family {
        "host" => matches!(call, "sqrt" | "hypot" | "sin" | "cos" | "asin" | "atan2"),
        "euclidean" => matches!(call, "distance" | "ratio" | "along" | "length"),
        _ => false,
    }
}

// The question of a call that is found by its name. The name is looked at first: what stands after another one is not
// read, and takes no memory.
fn question_of(heap: Global, line: Line) -> Result<Option<Question>, AllocError>
    ensures { IfOk result (Reads asked (Spells line.entry.bytes.now)) }
{
    let Some((family, call, rest)) = split_name(line) else {
        return Ok(None);
    };
    if family == "euclidean" && call == "frechet" {
        return frechet_question(heap, rest);
    }
    if !takes_numbers(family, call) {
        return Ok(None);
    }
    let Some(numbers) = numbers(heap, rest)? else {
        return Ok(None);
    };
    match family {
        "host" => Ok(host_question(call, numbers.as_slice())),
        "euclidean" => plane_question(heap, call, numbers.as_slice()),
        _ => Ok(None),
    }
}

// The question that a line spells; where bounds made no line, there is none.
pub(crate) fn read_question(
    heap: Global,
    line: Option<Line>,
) -> Result<Option<Question>, AllocError>
    ensures { IfOk result (Reads asked (SpellsAt line.entry)) }
{
    match line {
        Some(line) => question_of(heap, line),
        None => Ok(None),
    }
}
