// A host that answers from a list of records, for tests and for machines with tables of their own.
ghost use Rattle.std.specs.Prelude.{◌≡◌};
ghost use Rattle.hosts.specs.Recorded.{recorded_answer};

use crate::host::{Function, Host, answer};
use points::fault::Fault;
use std::num::f64_from_bits_with_nan;

// A function by its number, the bits of its two arguments (the second 0 where it has one) and of its answer. The
// number stays a byte, as the record's format has it: any may come in, and one that is no function's never answers.
#[derive(Clone, Copy)]
pub struct Recorded {
    pub function: u8,
    pub x: u64,
    pub y: u64,
    pub answer: u64,
}

#[derive(Clone, Copy)]
pub struct RecordedHost<'a> {
    pub records: &'a [Recorded],
}

impl RecordedHost<'_> {
    // What the first record of this function at these arguments answers. No record is of a NaN.
    fn recorded(&self, function: Function, x: f64, y: f64) -> Option<f64>
        ensures { result ≡ recorded_answer self.now.records.now function x y }
    {
        if x.is_nan() || y.is_nan() {
            return None;
        }
        let asked = (function as u8, x.to_bits(), y.to_bits());
        self.records
            .iter()
            .find(|record| (record.function, record.x, record.y) == asked)
            .map(|record| f64_from_bits_with_nan(record.answer))
    }
}

// The six differ in the function alone; `Host` has no one method for all, as three of `SeriesHost` carry laws.
impl Host for RecordedHost<'_> {
    ghost meaning = { λ h. recorded_answer h.records.now };

    fn sqrt(&self, x: f64) -> Result<f64, Fault> {
        answer(self.recorded(Function::Sqrt, x, 0.0))
    }

    fn hypot(&self, x: f64, y: f64) -> Result<f64, Fault> {
        answer(self.recorded(Function::Hypot, x, y))
    }

    fn sin(&self, x: f64) -> Result<f64, Fault> {
        answer(self.recorded(Function::Sin, x, 0.0))
    }

    fn cos(&self, x: f64) -> Result<f64, Fault> {
        answer(self.recorded(Function::Cos, x, 0.0))
    }

    fn asin(&self, x: f64) -> Result<f64, Fault> {
        answer(self.recorded(Function::Asin, x, 0.0))
    }

    fn atan2(&self, y: f64, x: f64) -> Result<f64, Fault> {
        answer(self.recorded(Function::Atan2, y, x))
    }
}
