// A line, read from its front: each step gives what was found there and what is left.
ghost use Rattle.std.specs.Prelude.{◌+◌, ◌^◌, ◌<◌, length};

use crate::hex::parse_bits;
use crate::run::count_before;
use crate::words::{Word, word_of};

// A line of a job, or what is left of one: its bytes, and the index in the job where they begin.
#[derive(Clone, Copy)]
pub struct Line<'a> {
    bytes: &'a [u8],
    place: usize,
    ghost fits: { place + length bytes.now < 2 ^ 64 },
}

impl<'a> Line<'a> {
    ghost use Rattle.std.specs.Prelude.{◌≡◌, ◌≢◌, ◌≤◌, ◌↔◌, IsTrue, List, ℕ, [], ◌++◌, drop, MatchOption};
    ghost use Rattle.text.specs.Lines.{Inside, part, front};
    ghost use Rattle.text.specs.Grammar.{Parted, word_bytes, WordFirst, NoWord, NumberFirst, NoNumber};

    // The part of a job from `start` up to `end`; none where these bound no part of it.
    pub fn part(job: &'a [u8], start: usize, end: usize) -> Option<Line<'a>>
        ensures { MatchOption result (Inside job.now start end → ⊥)
            (λ l. Inside job.now start end × (l.bytes.now ≡ part job.now start end) × (l.place ≡ start)) }
    {
        let bytes = job.get(start..end)?;
        Some(Line {
            bytes,
            place: start,
        })
    }

    pub fn bytes(self) -> &'a [u8]
        ensures { result.now ≡ self.entry.bytes.now }
    {
        let Line { bytes, .. } = self;
        bytes
    }

    // The index in the job where the bytes begin.
    pub fn place(self) -> usize
        ensures { result ≡ self.entry.place }
    {
        self.place
    }

    pub fn is_empty(self) -> bool
        ensures { IsTrue result ↔ (self.entry.bytes.now ≡ []) }
    {
        self.bytes.is_empty()
    }

    // What is left after so many bytes.
    fn after(self, count: usize) -> Line<'a>
        requires { count ≤ length self.bytes.now }
        ensures bytes { result.bytes.now ≡ drop count self.entry.bytes.now }
        ensures place { result.place ≡ self.entry.place + count }
    {
        Line {
            bytes: &self.bytes[count..],
            place: self.place + count,
        }
    }

    // What is left after these bytes, if the line begins with them.
    pub fn strip_prefix(self, prefix: &[u8]) -> Option<Line<'a>>
        ensures { MatchOption result ((rest : List ℕ) → self.entry.bytes.now ≢ prefix.now ++ rest)
            (λ l. (self.entry.bytes.now ≡ prefix.now ++ l.bytes.now) × (l.place ≡ self.entry.place + length prefix.now)) }
    {
        let bytes = self.bytes.strip_prefix(prefix)?;
        Some(Line {
            bytes,
            place: self.place + prefix.len(),
        })
    }

    // The bytes before the first space, and what is left after them.
    pub fn split_front(self) -> (&'a [u8], Line<'a>)
        ensures front { result.0.now ≡ front self.entry.bytes.now }
        ensures whole { self.entry.bytes.now ≡ result.0.now ++ result.1.bytes.now }
        ensures parted { Parted result.1.bytes.now }
        ensures place { result.1.place ≡ self.entry.place + length result.0.now }
    {
        let count = count_before(self.bytes, b' ');
        (&self.bytes[..count], self.after(count))
    }

    // The word at the front, whose bytes end before the first space, and what is left after it.
    pub fn split_word(self) -> Option<(Word<'a>, Line<'a>)>
        ensures { MatchOption result (NoWord self.entry.bytes.now)
            (λ p. WordFirst self.entry.bytes.now self.entry.place p.0 p.1.bytes.now
            × (p.1.place ≡ self.entry.place + length (word_bytes p.0))) }
    {
        let (bytes, rest) = self.split_front();
        Some((word_of(bytes, self.place)?, rest))
    }

    // The number that a space and a word after it spell at the front, and what is left after them.
    pub fn split_number(self) -> Option<(u64, Line<'a>)>
        ensures { MatchOption result (NoNumber self.entry.bytes.now)
            (λ p. NumberFirst self.entry.bytes.now p.0 p.1.bytes.now × (p.1.place ≡ self.entry.place + 17)) }
    {
        match self.strip_prefix(b" ")?.split_word()? {
            (Word::Number(digits, _), rest) => Some((parse_bits(digits)?, rest)),
            (Word::Letter(..), _) => None,
        }
    }
}
