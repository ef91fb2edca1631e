// A table of point records that keeps one line. Each edit has a number, and the newest can be taken back.
#![tactic(auto)]

pub mod append;
pub mod chain;
mod cursor;
pub mod densify;
pub mod format;
mod kept;
pub mod settle;
pub mod undo;
mod weave;
pub mod whole;

ghost use Rattle.std.specs.Prelude.{◌≡◌, Ok, Err};
ghost use Rattle.table.specs.Chains.{point_in};
ghost use Rattle.table.specs.Densify.{edit_after};
ghost use Rattle.table.specs.Links.{freed};
ghost use Rattle.table.specs.Outcomes.{NextEdit, NoEditLeft};

use points::fault::{Cause, Fault, Layer};
use points::point::Point;

// The edit number of a free record. The record's format has it, so that no enum stands in its place.
const FREE: u8 = 255;

// The last number that an edit can have.
const LAST_EDIT: u8 = 254;

// The most records of a table: an index has 16 bits.
const MOST_RECORDS: usize = 65_536;

// A point, the index of the next record of its chain, where 0 ends the chain, and the number of its edit.
// A table is the caller's memory, so that records are chained by their index there, and nothing is on a heap.
#[derive(Clone, Copy, Debug, Default, PartialEq)]
pub struct Record {
    pub x: f64,
    pub y: f64,
    pub next: u16,
    pub edit: u8,
}

// Where the line and the free records of a table begin, how many points the line has, and the number of its
// newest edit. Only `format` makes one, and it cannot be copied: there is one head to a table. A call takes the two
// apart, since the table is the caller's memory, and a comparison takes the head alone.
#[derive(Drop)]
pub struct Head {
    first: u16,
    free: u16,
    count: u16,
    newest: u8,
}

impl Record {
    // A free record that leads on to `next`.
    fn free(next: u16) -> Record
        ensures { result ≡ freed next }
    {
        Record {
            next,
            edit: FREE,
            ..Record::default()
        }
    }
}

impl From<Record> for Point {
    ghost from_gives = { λ r p. p ≡ point_in r };

    fn from(record: Record) -> Point {
        Point {
            x: record.x,
            y: record.y,
        }
    }
}

impl Head {
    pub fn count(&self) -> usize
        ensures { result ≡ self.now.count }
    {
        usize::from(self.count)
    }

    pub fn newest(&self) -> u8
        ensures { result ≡ self.now.newest }
    {
        self.newest
    }

    // The number that the next edit gets, if one is left.
    pub fn next_edit(&self) -> Result<u8, Fault>
        ensures number { elim result [
          | Ok e ↦ NextEdit self.now e
          | Err f ↦ NoEditLeft self.now f
        ] }
        ensures answer { result ≡ edit_after self.now.newest }
    {
        if self.newest < LAST_EDIT {
            Ok(self.newest + 1)
        } else {
            Err(Fault::new(Cause::NoEditNumber, Layer::Table))
        }
    }
}
