// The printed line of each line of a job.
ghost use Rattle.std.specs.Prelude.{◌≡◌, IfOk, vec_items, string_bytes, MatchResult};
ghost use Rattle.text.specs.Printed.{status_text};
ghost use Rattle.job.specs.Reply.{point_of, finite_or_not, reference_room, outcome_number, added, plane_distance, distance_of, distance_text, reply_to};
ghost use Rattle.job.specs.Answer.{length_allowed, CommandOrFault, Replies, Answered};

use crate::job::Job;
use frechet::distance::frechet_distance;
use hosts::series::SeriesHost;
use points::fault::{Cause, Fault, Layer, ensure};
use points::point::Point;
use points::walk::Forward;
use spaces::euclidean::Euclidean;
use std::alloc::{AllocError, Global};
use std::num::{f64_from_bits_with_nan, f64_to_bits_with_nan};
use text::command::{Command, read_command};
use text::line::Line;
use text::printed::{Letter, bits_line, malformed_line, status_line};

// The longest job, in bytes.
pub const LONGEST_JOB: usize = 60_000;

// The most points that a reference has.
const MOST_REFERENCE_POINTS: usize = 1_000;

// Whether a job may have so many bytes; a longer one is malformed as a whole, at no line.
pub fn check_length(bytes: usize) -> Result<(), Fault>
    ensures { result ≡ length_allowed bytes }
{
    ensure(bytes <= LONGEST_JOB, Cause::Malformed, Layer::Job)
}

// By the bits and no `From`: they may be those of a NaN, which `f64::from_bits` does not take.
fn point_of(x: u64, y: u64) -> Point
    ensures { result ≡ point_of x y }
{
    Point {
        x: f64_from_bits_with_nan(x),
        y: f64_from_bits_with_nan(y),
    }
}

fn finite(p: Point) -> Result<(), Fault>
    ensures { result ≡ finite_or_not p }
{
    ensure(p.is_finite(), Cause::NotFinite, Layer::Line)
}

// Whether a reference of `count` points takes one more.
fn reference_takes(count: usize, p: Point) -> Result<(), Fault>
    ensures { result ≡ reference_room count p }
{
    finite(p)?;
    ensure(count < MOST_REFERENCE_POINTS, Cause::NoRoom, Layer::Line)
}

// The distance of the two lines, in the Euclidean plane over the series host. The crate `questions` has the like, for
// lines of its own; no crate below the two has both that host and this distance.
fn distance(planned: &[Point], reference: &[Point], cells: &mut [f64]) -> Result<f64, Fault>
    ensures { result ≡ plane_distance planned.now reference.now cells.old }
{
    let plane = Euclidean { host: SeriesHost };
    let mut planned = Forward::new(planned);
    let mut reference = Forward::new(reference);
    frechet_distance(&plane, &mut planned, &mut reference, cells)
}

// The letter, and 0 or the number of the refusal.
fn status(heap: Global, letter: Letter, outcome: Result<(), Fault>) -> Result<String, AllocError>
    ensures { IfOk result (λ s. string_bytes s ≡ status_text letter (outcome_number outcome)) }
{
    let number = outcome.err().map_or(0, |fault| fault.cause.number());
    status_line(heap, letter, number)
}

// Adds the point to the list unless it is refused. The text is made before anything is kept, so that want of
// memory changes nothing.
fn add(
    heap: Global,
    letter: Letter,
    list: &mut Vec<Point>,
    p: Point,
    outcome: Result<(), Fault>,
) -> Result<String, AllocError>
    ensures { MatchResult result
        (λ s. (string_bytes s ≡ status_text letter (outcome_number outcome))
        × (list.new.items ≡ added outcome list.old.items p))
        (λ _. list.new.items ≡ list.old.items) }
{
    let text = status(heap, letter, outcome)?;
    if outcome.is_ok() {
        list.push(p)?;
    }
    Ok(text)
}

// What the line asks for, or the fault that tells its number.
fn command_of(line: Option<Line>, number: usize) -> Result<Command, Fault>
    ensures { CommandOrFault line.entry number result }
{
    read_command(line).ok_or_else(|| Fault::new(Cause::Malformed, Layer::Job).at(number))
}

impl Job {
    fn compare(&self, heap: Global) -> Result<String, AllocError>
        ensures { IfOk result (λ s. string_bytes s ≡ distance_text (distance_of self.now)) }
    {
        let shorter = self.planned.len().min(self.reference.len());
        let mut cells = vec![in heap; 0.0; 2 * shorter]?;
        match distance(
            self.planned.as_slice(),
            self.reference.as_slice(),
            &mut cells,
        ) {
            Ok(d) => bits_line(heap, Letter::C, f64_to_bits_with_nan(d)),
            Err(fault) => status(heap, Letter::C, Err(fault)),
        }
    }

    fn reply(&mut self, heap: Global, command: Command) -> Result<String, AllocError>
        ensures { MatchResult result (λ s. Replies self.old command (string_bytes s)
            self.new) (λ _. self.new ≡ self.old) }
    {
        match command {
            Command::Reference(x, y) => {
                let p = point_of(x, y);
                let outcome = reference_takes(self.reference.len(), p);
                add(heap, Letter::R, &mut self.reference, p, outcome)
            }
            Command::Append(x, y) => {
                let p = point_of(x, y);
                add(heap, Letter::A, &mut self.planned, p, finite(p))
            }
            Command::Compare => self.compare(heap),
        }
    }

    // The printed line of the line with this number; where bounds made no line, it is malformed. Only want of memory
    // leaves it unanswered, and then nothing has changed.
    pub fn answer(
        &mut self,
        heap: Global,
        line: Option<Line>,
        number: usize,
    ) -> Result<String, AllocError>
        ensures { MatchResult result
            (λ s. Answered line.entry number self.old (string_bytes s) self.new)
            (λ _. self.new ≡ self.old) }
    {
        match command_of(line, number) {
            Ok(command) => self.reply(heap, command),
            Err(fault) => malformed_line(heap, fault.place),
        }
    }
}
