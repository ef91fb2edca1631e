// Densify: points between the neighbours of the line. All pairs are measured and every point is asked for
// before the first is written, so that a refused call changes nothing.
ghost use Rattle.std.specs.Prelude.{◌≡◌, Ok, Err};
ghost use Rattle.measures.specs.Pieces.{told, densified};
ghost use Rattle.points.specs.declared.fault.Layer.TheVariants.{Table};
ghost use Rattle.table.specs.Densify.{outcome, DensifyOk, DensifyErr};
ghost use Rattle.table.specs.Lines.{kept_line};
ghost use Rattle.table.specs.Whole.{free_count};

use crate::kept::KeptLine;
use crate::weave::weave;
use crate::{Head, Record};
use measures::pairs::Densify;
use measures::pieces::check_maximum;
use points::fault::{Fault, Layer, in_layer};
use spaces::space::Space;

impl KeptLine<'_, '_> {
    // Measures the pairs, counts the free records and asks for the points.
    fn ask_points<S: Space>(&self, cut: &Densify<S>) -> Result<(), Fault>
        ensures { result ≡ told (densified (S.far cut.now.space.now) (S.ratio cut.now.space.now) Table cut.now.maximum
            (free_count self.now.table.now self.now.head.now)
            (kept_line self.now.table.now self.now.head.now)) }
    {
        let room = self.free_count() as u64;
        cut.ask_line(&mut self.points(), room, Layer::Table)
    }

    // What a densify refuses.
    fn ask<S: Space>(&self, cut: &Densify<S>) -> Result<(), Fault>
        ensures { result ≡ told (outcome (S.far cut.now.space.now) (S.ratio cut.now.space.now) cut.now.maximum
            self.now.table.now self.now.head.now) }
    {
        in_layer(check_maximum(cut.maximum), Layer::Table)?;
        self.head.next_edit()?;
        self.ask_points(cut)
    }
}

// A densify that adds no point is an edit too.
pub fn densify<S: Space>(
    table: &mut [Record],
    head: &mut Head,
    space: &S,
    maximum: f64,
) -> Result<(), Fault>
    ensures { elim result [
      | Ok _ ↦
          DensifyOk (S.far space.now) (S.ratio space.now) maximum
          table.old head.old table.new head.new
      | Err f ↦
          DensifyErr (S.far space.now) (S.ratio space.now) maximum
          table.old head.old f table.new head.new
    ] }
{
    let cut = Densify { space, maximum };
    KeptLine::new(table, head)?.ask(&cut)?;
    weave(table, head, &cut);
    Ok(())
}
