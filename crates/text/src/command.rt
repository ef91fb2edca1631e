// The commands of a job, one to a line: `R x y`, `A x y` and `C`.
ghost use Rattle.std.specs.Prelude.{◌≡◌, ℕ, ◌^◌, ◌<◌, ◌∷◌, ◌++◌, MatchOption, ◌≢◌};
ghost use Rattle.text.specs.Grammar.{spaced, Unspelled, CommandOf};
ghost use Rattle.text.specs.Parts.{NoCommand, CommandAt};

use crate::line::Line;
use crate::words::Word;

// What a line asks for; its numbers are words of 64 bits.
#[derive(Clone, Copy, Debug, PartialEq, Eq)]
pub enum Command {
    Reference(u64, u64),
    Append(u64, u64),
    Compare,
}

// The command that a line spells; where bounds made no line, there is none.
pub fn read_command(line: Option<Line>) -> Option<Command>
    ensures { MatchOption result (NoCommand line.entry) (CommandAt line.entry) }
{
    command_of(line?)
}

fn command_of(line: Line) -> Option<Command>
    ensures { MatchOption result (Unspelled line.entry.bytes.now) (CommandOf line.entry.bytes.now) }
{
    let (Word::Letter([name], _), rest) = line.split_word()? else {
        return None;
    };
    dispatch(char::from(*name), rest)
}

// The command with this letter, whose numbers are the rest of the line.
fn dispatch(letter: char, rest: Line) -> Option<Command>
    ensures { let line = letter ∷ rest.entry.bytes.now in MatchOption result (Unspelled line) (CommandOf line) }
{
    match letter {
        'R' => {
            let (x, y) = two_numbers(rest)?;
            Some(Command::Reference(x, y))
        }
        'A' => {
            let (x, y) = two_numbers(rest)?;
            Some(Command::Append(x, y))
        }
        'C' => rest.is_empty().then_some(Command::Compare),
        _ => None,
    }
}

// The two numbers that are all that is left of a line.
fn two_numbers(rest: Line) -> Option<(u64, u64)>
    ensures { MatchOption result
        ((x y : ℕ) → x < 2 ^ 64 → y < 2 ^ 64 → rest.entry.bytes.now ≢ spaced x ++ spaced y)
        (λ p. (p.0 < 2 ^ 64) × (p.1 < 2 ^ 64) × (rest.entry.bytes.now ≡ spaced p.0 ++ spaced p.1)) }
{
    let (x, rest) = rest.split_number()?;
    let (y, rest) = rest.split_number()?;
    rest.is_empty().then_some((x, y))
}
