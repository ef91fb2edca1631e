// The line of a table that the check has accepted.
ghost use Rattle.std.proofs.Props.{props};
ghost use Rattle.table.specs.Facts.{Chained-prop};
ghost use Rattle.table.specs.Whole.{Checked};

use crate::chain::Chain;
use crate::whole::check;
use crate::{Head, Record};
use points::fault::Fault;

// Only a table that is whole for the head makes one.
#[derive(Clone, Copy)]
pub(crate) struct KeptLine<'t, 'h> {
    table: &'t [Record],
    pub(crate) head: &'h Head,
    ghost checked: { Checked table.now head.now } by { Prim.hlevel (props, Chained-prop) },
}

impl<'t, 'h> KeptLine<'t, 'h> {
    ghost use Rattle.std.specs.Prelude.{◌≡◌, Ok, Err, IfOk};
    ghost use Rattle.table.specs.Lines.{line_from, kept_line};
    ghost use Rattle.table.specs.Whole.{Checked, BadTable, free_count};

    pub(crate) fn new(table: &'t [Record], head: &'h Head) -> Result<KeptLine<'t, 'h>, Fault>
        ensures checked { elim result [
          | Ok _ ↦ Checked table.now head.now
          | Err f ↦ BadTable table.now head.now f
        ] }
        ensures same { IfOk result (λ k. (k.table.now ≡ table.now) × (k.head.now ≡ head.now)) }
    {
        check(table, head)?;
        Ok(KeptLine { table, head })
    }

    // How many records are free.
    pub(crate) fn free_count(&self) -> usize
        ensures { result ≡ free_count self.now.table.now self.now.head.now }
    {
        self.table.len() - 1 - usize::from(self.head.count)
    }

    // Its points, at the first.
    #[tactic(auto, using(crate::proofs::Positions::index_inside))]
    pub(crate) fn points(&self) -> Chain<'t>
        ensures kept { line_from result.table.now result.count result.first
            ≡ kept_line self.now.table.now self.now.head.now }
        ensures first { result.at ≡ 0 }
    {
        Chain::begin(self.table, self.head.first, self.head.count)
    }
}
