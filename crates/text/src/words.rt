// The words of a line: what each is, by how many bytes it has.
ghost use Rattle.std.specs.Prelude.{◌≡◌, length, MatchOption, ◌≢◌};
ghost use Rattle.text.specs.Grammar.{word_bytes, word_place, WordSized};

// A word of the job: its bytes, and the index where it begins; by a rule of the project it borrows the job's bytes
// and keeps its place.
#[derive(Clone, Copy, Debug)]
pub enum Word<'a> {
    Letter(&'a [u8], usize),
    Number(&'a [u8], usize),
}

// The word that these bytes are.
pub(crate) fn word_of<'a>(bytes: &'a [u8], place: usize) -> Option<Word<'a>>
    ensures { MatchOption result
        ((length bytes.now ≢ 1) × (length bytes.now ≢ 16))
        (λ w. (word_bytes w ≡ bytes.now) × WordSized w × (word_place w ≡ place)) }
{
    match bytes.len() {
        1 => Some(Word::Letter(bytes, place)),
        16 => Some(Word::Number(bytes, place)),
        _ => None,
    }
}
