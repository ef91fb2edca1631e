// A table's chain as a line source.
ghost use Rattle.std.specs.Prelude.{◌≡◌, ℕ, ◌<◌, cond, [], length, nat_lt};
ghost use Rattle.table.specs.Chains.{at as record_at, index_at};
ghost use Rattle.table.specs.Lines.{line_from, kept_line};
ghost use Rattle.table.specs.Whole.{Checked};

use crate::chain::Chain;
use crate::kept::KeptLine;
use crate::{Head, Record};
use points::coords::CoordsIter;
use points::point::Point;

impl<'a> Chain<'a> {
    // The kept points, and none where the table is refused.
    pub fn new(table: &'a [Record], head: &Head) -> Chain<'a>
        ensures kept { Checked table.now head.now
            → line_from result.table.now result.count result.first
            ≡ kept_line table.now head.now }
        ensures refused { (Checked table.now head.now → ⊥)
            → line_from result.table.now result.count result.first ≡ [] }
        ensures first { result.at ≡ 0 }
    {
        KeptLine::new(table, head).map_or(Chain::begin(table, 0, 0), |line| line.points())
    }

    // At the first of `count` records, which all lie in the table.
    pub(crate) fn begin(table: &'a [Record], first: u16, count: u16) -> Chain<'a>
        requires { (k : ℕ) → k < count → index_at table.now first k < length table.now }
        ensures coords { line_from result.table.now result.count result.first ≡ line_from table.now count first }
        ensures first { result.at ≡ 0 }
    {
        Chain {
            table,
            first,
            count,
            at: 0,
            here: first,
        }
    }

    // The record here, if a point is left.
    fn record(&self) -> Option<Record>
        ensures { result ≡ cond (nat_lt self.now.at self.now.count)
            (Some (record_at self.now.table.now self.now.here)) None }
    {
        // Of what the closure of a `then` or of a `filter` gives the proofs knew too little.
        if self.at < self.count {
            Some(self.table[usize::from(self.here)])
        } else {
            None
        }
    }
}

impl CoordsIter for Chain<'_> {
    ghost coords = { λ line. line_from line.table.now line.count line.first };

    ghost position = { λ line. line.at };

    #[tactic(auto, using(crate::proofs::Positions::length_line))]
    fn coords_count(&self) -> usize {
        usize::from(self.count)
    }

    fn rewind(&mut self) {
        self.at = 0;
        self.here = self.first;
    }

    #[tactic(auto, using(crate::proofs::Positions::nth_line, crate::proofs::Positions::nth_line_past))]
    fn current(&self) -> Option<Point> {
        self.record().map(Point::from)
    }

    #[tactic(auto, using(crate::proofs::Positions::length_line, crate::proofs::Positions::index_more))]
    fn advance(&mut self) {
        if let Some(record) = self.record() {
            self.here = record.next;
            self.at += 1;
        }
    }
}
