// The arguments of a call: the numbers after its name.
ghost use Rattle.std.specs.Prelude.{◌≡◌, List, [], length as count_of, IfOk, map, vec_items, MatchOption, ◌≢◌, Float};
ghost use Rattle.points.specs.declared.point.Point as Place;
ghost use Rattle.questions.specs.Asked.{asked};
ghost use Rattle.questions.specs.Spelling.{Words, TwoWords, coordinates, pair_point};
ghost use Rattle.questions.specs.Reading.{NumbersFirst, Reads, TwoLines};

use crate::question::Question;
use points::point::Point;
use std::alloc::{AllocError, Global};
use std::num::f64_from_bits_with_nan;
use text::line::Line;

// The numbers at the front of a line, as many as stand there, and what is left after them.
fn split_numbers<'a>(heap: Global, line: Line<'a>) -> Result<(Vec<f64>, Line<'a>), AllocError>
    ensures { IfOk result (λ p. NumbersFirst line.entry.bytes.now p.0.items p.1.bytes.now) }
{
    let mut numbers = Vec::new(heap);
    let mut rest = line;
    while let Some((bits, after)) = rest.split_number() {
        numbers.push(f64_from_bits_with_nan(bits))?;
        rest = after;
    }
    Ok((numbers, rest))
}

// The numbers that are all that a line has.
pub(crate) fn numbers(heap: Global, line: Line) -> Result<Option<Vec<f64>>, AllocError>
    ensures { IfOk result (Reads vec_items (Words line.entry.bytes.now [])) }
{
    let (numbers, rest) = split_numbers(heap, line)?;
    Ok(rest.is_empty().then_some(numbers))
}

// The points of these pairs of coordinates.
fn each_point(heap: Global, pairs: &[[f64; 2]]) -> Result<Vec<Point>, AllocError>
    ensures { IfOk result (λ v. v.items ≡ map pair_point pairs.now) }
{
    pairs
        .iter()
        .map(|[x, y]| Point { x: *x, y: *y })
        .collect(heap)
}

// The points that these numbers are the coordinates of: none where the last point has no y.
pub(crate) fn points_of(heap: Global, numbers: &[f64]) -> Result<Option<Vec<Point>>, AllocError>
    ensures { IfOk result (λ o. MatchOption o
        ((ps : List Place.Point) → count_of (coordinates ps) ≢ count_of numbers.now)
        (λ v. coordinates v.items ≡ numbers.now)) }
{
    let (pairs, []) = numbers.as_chunks::<2>() else {
        return Ok(None);
    };
    Ok(Some(each_point(heap, pairs)?))
}

// The numbers before a slash and after it.
fn parted_numbers(heap: Global, line: Line) -> Result<Option<(Vec<f64>, Vec<f64>)>, AllocError>
    ensures { IfOk result (Reads {Y = List Float × List Float} (λ p. (p.0.items, p.1.items))
        (λ p. TwoWords line.entry.bytes.now [] p.0 p.1)) }
{
    let (before, rest) = split_numbers(heap, line)?;
    let Some(rest) = rest.strip_prefix(b" /") else {
        return Ok(None);
    };
    Ok(numbers(heap, rest)?.map(|after| (before, after)))
}

// The question of the distance of two lines, whose points stand before a slash and after it.
pub(crate) fn frechet_question(heap: Global, line: Line) -> Result<Option<Question>, AllocError>
    ensures { IfOk result (Reads asked (TwoLines line.entry.bytes.now)) }
{
    let Some((before, after)) = parted_numbers(heap, line)? else {
        return Ok(None);
    };
    let Some(ps) = points_of(heap, before.as_slice())? else {
        return Ok(None);
    };
    let qs = points_of(heap, after.as_slice())?;
    Ok(qs.map(|qs| Question::Frechet(ps, qs)))
}
