// The lines of a job, one after the other.
ghost use Rattle.std.specs.Prelude.{◌≡◌};
ghost use Rattle.std.specs.Iterator.{item_count};
ghost use Rattle.text.specs.Steps.{lines_left, LineGiven};

use crate::line::Line;
use crate::run::count_before;

// The lines of a job from the index `at` on: each ends before LF, or with the job; a final LF starts none.
// The job and an index, and no `Line` that shrinks: a step tells by them which part of the job its line is, and `at`
// may be past the job's end.
#[derive(Drop)]
pub struct Lines<'a> {
    job: &'a [u8],
    at: usize,
}

impl<'a> Lines<'a> {
    pub fn new(job: &'a [u8]) -> Lines<'a>
        ensures job { result.job.now ≡ job.now }
        ensures first { result.at ≡ 0 }
    {
        Lines::starting_at(job, 0)
    }

    // The lines from any index on; from the job's end on there are none.
    pub fn starting_at(job: &'a [u8], at: usize) -> Lines<'a>
        ensures job { result.job.now ≡ job.now }
        ensures first { result.at ≡ at }
    {
        Lines { job, at }
    }
}

impl<'a> Iterator for Lines<'a> {
    type Item = Line<'a>;

    ghost next_gives = { LineGiven };

    ghost remaining = { item_count lines_left };

    fn next(&mut self) -> Option<Line<'a>> {
        if self.at >= self.job.len() {
            return None;
        }
        let end = self.at + count_before(&self.job[self.at..], b'\n');
        let line = Line::part(self.job, self.at, end)?;
        self.at = end + 1;
        Some(line)
    }
}
