// The line of a table, walked along its chain.
pub mod walk;

ghost use Rattle.std.specs.Prelude.{◌≡◌, ℕ, ◌<◌, length};
ghost use Rattle.table.specs.Chains.{index_at};

use crate::Record;

// `here` is the index after `at` steps from the first: a line source is stepped, and tells where it stands.
#[derive(Clone, Copy)]
pub struct Chain<'a> {
    table: &'a [Record],
    first: u16,
    count: u16,
    at: u16,
    here: u16,
    ghost inside: { (k : ℕ) → k < count → index_at table.now first k < length table.now },
    ghost stands: { here ≡ index_at table.now first at },
}
