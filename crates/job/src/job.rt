// What a job keeps from line to line.
ghost use Rattle.std.specs.Prelude.{◌≡◌, []};

use points::point::Point;
use std::alloc::Global;
use std::marker::Model;

// The reference, of at most 1,000 points, and the planned line.
#[derive(Drop)]
pub struct Job {
    pub(crate) reference: Vec<Point>,
    pub(crate) planned: Vec<Point>,
}

impl Model for Job {
    ghost use Rattle.std.specs.Prelude.{◌≤◌, vec_len, vec_items};
    ghost use Rattle.job.specs.Kept.{Kept};

    ghost Value = { Kept };

    ghost view = { λ job. record { reference = vec_items job.reference; planned = vec_items job.planned } };

    ghost invariant = { λ job. vec_len job.reference ≤ 1000 };
}

impl Job {
    pub fn new(heap: Global) -> Job
        ensures reference { result.reference ≡ [] }
        ensures planned { result.planned ≡ [] }
    {
        Job {
            reference: Vec::new(heap),
            planned: Vec::new(heap),
        }
    }
}
