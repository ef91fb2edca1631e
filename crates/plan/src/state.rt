// What a list of calls has come to between two calls.
use crate::comparison::Comparison;
use table::Head;

// The head, or the open comparison that has taken it, with its reference.
pub enum State<R> {
    Editing(Head),
    Comparing(Comparison, R),
}
