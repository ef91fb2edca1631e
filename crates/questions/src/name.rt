// The name of a call: a family of calls, and a call of that family.
ghost use Rattle.std.specs.Prelude.{◌≡◌, ◌<◌, ◌∷◌, ◌++◌, length, MatchOption};
ghost use Rattle.std.specs.Str.{IsUtf8};
ghost use Rattle.text.specs.Lines.{front};
ghost use Rattle.text.specs.Grammar.{Parted};
ghost use Rattle.questions.specs.Spelling.{Unspelled};
ghost use Rattle.questions.specs.Reading.{NameFirst};

use std::str;
use text::line::Line;

// The longest word of a name, `euclidean`, has so many bytes: a longer one is not looked at.
const LONGEST_WORD: usize = 9;

fn text_of(bytes: &[u8]) -> Option<&str>
    ensures { MatchOption result (IsUtf8 bytes.now → 9 < length bytes.now) (λ s. s.now ≡ bytes.now) }
{
    if bytes.len() > LONGEST_WORD {
        return None;
    }
    str::from_utf8(bytes).ok()
}

// The word at the front of a line, and what is left after it; none where it is no text, or too long for a name.
fn split_text<'a>(line: Line<'a>) -> Option<(&'a str, Line<'a>)>
    ensures { let bytes = line.entry.bytes.now in MatchOption result (IsUtf8 (front bytes) → 9 < length (front bytes))
        (λ p. (p.0.now ≡ front bytes) × (bytes ≡ p.0.now ++ p.1.bytes.now) × Parted p.1.bytes.now) }
{
    let (word, rest) = line.split_front();
    Some((text_of(word)?, rest))
}

// The two words at the front of a line, and what is left after them.
pub(crate) fn split_name<'a>(line: Line<'a>) -> Option<(&'a str, &'a str, Line<'a>)>
    ensures { MatchOption result (Unspelled line.entry.bytes.now)
        (λ p. NameFirst line.entry.bytes.now p.0.now p.1.now p.2.bytes.now) }
{
    let (family, rest) = split_text(line)?;
    let (call, rest) = split_text(rest.strip_prefix(b" ")?)?;
    Some((family, call, rest))
}
