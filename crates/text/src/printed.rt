// The lines that are printed in answer to the lines of a job.
ghost use Rattle.std.specs.Prelude.{◌≡◌, Some, IfOk, string_bytes};
ghost use Rattle.text.specs.Printed.{letter_text, status_text, malformed_text, bits_text};

use crate::hex::Bits;
use std::alloc::{AllocError, Global};
use std::fmt;

// The letter of the command that a line answers.
#[derive(Clone, Copy, Debug, PartialEq, Eq)]
pub enum Letter {
    R,
    A,
    C,
}

impl fmt::Display for Letter {
    ghost output = { λ letter. Some (letter_text letter) };

    fn fmt<W: fmt::Write>(&self, f: &mut fmt::Formatter<W>) -> fmt::Result {
        f.write_str(match self {
            Letter::R => "R",
            Letter::A => "A",
            Letter::C => "C",
        })
    }
}

// The letter, a space, and a number: 0 or that of a refusal, as the job's printed format has it.
pub fn status_line(heap: Global, letter: Letter, number: u8) -> Result<String, AllocError>
    ensures { IfOk result (λ s. string_bytes s ≡ status_text letter number) }
{
    format!(in heap; "{letter} {number}")
}

// The letter, a space, and the bits in hexadecimal capitals.
pub fn bits_line(heap: Global, letter: Letter, bits: u64) -> Result<String, AllocError>
    ensures { IfOk result (λ s. string_bytes s ≡ bits_text letter bits) }
{
    let bits = Bits(bits);
    format!(in heap; "{letter} {bits}")
}

// The answer to a line that spells no command, with the line's number. The printed format fixes the 14, and this
// crate does not know the causes.
pub fn malformed_line(heap: Global, number: usize) -> Result<String, AllocError>
    ensures { IfOk result (λ s. string_bytes s ≡ malformed_text number) }
{
    format!(in heap; "? 14 {number}")
}
