// An open comparison of the kept line with a reference.
pub mod calls;

use points::fault::Fault;
use table::Head;

// It has taken the head, so the line cannot be edited until `close` gives the head back. It keeps the
// reference's count at open, how many rows were accepted, and the last cell of the newest. It derives no
// `Drop`, so it cannot be let go: only `close` spends it, by taking it apart.
pub struct Comparison {
    pub(crate) head: Head,
    reference: usize,
    done: usize,
    last: Option<f64>,
}

// A refused open hands the head back.
#[derive(Drop)]
pub struct Refused {
    pub head: Head,
    pub fault: Fault,
}

// What close gives back: the head, and the answer unless rows remain.
#[derive(Drop)]
pub struct Closed {
    pub head: Head,
    pub answer: Option<f64>,
}
