// The printed line that answers a line of questions.
ghost use Rattle.std.specs.Prelude.{IfOk, string_bytes};
ghost use Rattle.questions.specs.Answers.{Answered};

use crate::ask::{Answer, ask};
use crate::reading::read_question;
use points::fault::Cause;
use std::alloc::{AllocError, Global};
use text::line::Line;

// The answer to the question that the line spells; where it spells none, or bounds made no line, a refusal.
pub fn answer_line(heap: Global, line: Option<Line>) -> Result<String, AllocError>
    ensures { IfOk result (λ s. Answered line.entry (string_bytes s)) }
{
    let answer = match read_question(heap, line)? {
        Some(question) => ask(heap, question)?,
        None => Answer::Refused(Cause::Malformed),
    };
    format!(in heap; "{answer}")
}
