// The pairs of a line of any make, measured and asked for the points that a densify puts between them.
ghost use Rattle.std.specs.Prelude.{◌≡◌, ◌-◌, ◌≤◌, length as count_of};
ghost use Rattle.measures.specs.Pieces.{told, taken, cut_from, pieces_between, points_between, refined};
ghost use Rattle.measures.specs.Pieces.{densified_by};

use crate::pieces::{pieces, points_within, ratio_of};
use points::coords::{CoordsIter, given_count};
use points::fault::{Cause, Fault, Layer, at_place, ensure, in_layer};
use points::point::Point;
use spaces::space::Space;

// How a line is densified: in which space, and with pieces of at most which length. The layer is that of the call.
#[derive_where(Clone, Copy)]
pub struct Densify<'a, S> {
    pub space: &'a S,
    pub maximum: f64,
}

impl<S: Space> Densify<'_, S> {
    // How many pieces the stretch between two neighbours is cut into.
    pub fn pieces_between(&self, start: Point, end: Point, layer: Layer) -> Result<u32, Fault>
        ensures { result ≡ pieces_between (S.far self.now.space.now) layer self.now.maximum start end }
    {
        let distance = self.space.distance(start, end)?;
        in_layer(pieces(distance, self.maximum), layer)
    }

    // How many points the pairs take.
    #[tactic(auto, using(crate::proofs::Neighbours::taken_neighbours, points::proofs::Walking::length_neighbours))]
    fn measure<L: CoordsIter>(&self, line: &mut L, layer: Layer) -> Result<u64, Fault>
        requires { count_of (L.coords line.old) ≤ 65535 }
        ensures line { L.coords line.new ≡ L.coords line.old }
        ensures count { result ≡ taken (S.far self.now.space.now) layer self.now.maximum
            (L.coords line.old) }
    {
        let mut count = 0;
        for (k, (start, end)) in line.lines_iter().enumerate() {
            let pieces = at_place(self.pieces_between(start, end, layer), k + 1)?;
            count += u64::from(points_within(pieces));
        }
        Ok(count)
    }

    // Asks for each point that parts so many pieces.
    #[tactic(auto, using(crate::proofs::Cutting::cut_more))]
    fn ask_along(&self, pair: S::Pair, pieces: u32) -> Result<(), Fault>
        ensures { result ≡ told (cut_from (S.between self.now.space.now pair) pieces (pieces - 1) 1) }
    {
        for k in 1..pieces {
            self.space.point_at_ratio(pair, ratio_of(k, pieces))?;
        }
        Ok(())
    }

    // A pair is prepared once, and only where a point is asked for.
    fn ask_pair(&self, start: Point, end: Point, layer: Layer) -> Result<(), Fault>
        ensures { result ≡ told (points_between (S.far self.now.space.now) (S.ratio self.now.space.now)
            layer self.now.maximum start end) }
    {
        let pieces = self.pieces_between(start, end, layer)?;
        if pieces < 2 {
            return Ok(());
        }
        self.ask_along(self.space.pair(start, end)?, pieces)
    }

    // Asks for the points of all pairs, in line order.
    #[tactic(auto, using(crate::proofs::Neighbours::asked_neighbours))]
    fn ask<L: CoordsIter>(&self, line: &mut L, layer: Layer) -> Result<(), Fault>
        requires { count_of (L.coords line.old) ≤ 65535 }
        ensures line { L.coords line.new ≡ L.coords line.old }
        ensures points { result ≡ told (refined (S.far self.now.space.now) (S.ratio self.now.space.now)
            layer self.now.maximum (L.coords line.old)) }
    {
        for (k, (start, end)) in line.lines_iter().enumerate() {
            at_place(self.ask_pair(start, end, layer), k + 1)?;
        }
        Ok(())
    }

    // Whether the line can be densified with room for so many points. Every point is asked for, and none is kept.
    pub fn ask_line<L: CoordsIter>(
        &self,
        line: &mut L,
        room: u64,
        layer: Layer,
    ) -> Result<(), Fault>
        ensures line { L.coords line.new ≡ L.coords line.old }
        ensures points { result ≡ told (densified_by (S.far self.now.space.now) (S.ratio self.now.space.now)
            layer self.now.maximum room (L.coords line.old)) }
    {
        in_layer(given_count(line), layer)?;
        let count = self.measure(line, layer)?;
        ensure(count <= room, Cause::NoRoom, layer)?;
        self.ask(line, layer)
    }
}
