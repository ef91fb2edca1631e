// The last pass of a densify: the points of each pair are written between its records.
ghost use Rattle.std.specs.Prelude.{◌≡◌, ◌<◌};
ghost use Rattle.measures.specs.Pieces.{ratio_of};
ghost use Rattle.points.specs.Limits.{last_edit};
ghost use Rattle.table.specs.Weave.{pair_for, part_of, pieces_in, parts_in, Enough, Woven};
ghost use Rattle.table.specs.Whole.{Checked};

use crate::cursor::Cursor;
use crate::{Head, Record};
use measures::pairs::Densify;
use measures::pieces::ratio_of;
use points::fault::Layer;
use points::point::Point;
use spaces::space::Space;

fn count_pieces<S: Space>(cut: &Densify<S>, start: Point, end: Point) -> u32
    ensures { result ≡ pieces_in (S.far cut.now.space.now) cut.now.maximum start end }
{
    cut.pieces_between(start, end, Layer::Table).unwrap_or(0)
}

// A pair is prepared once, and only where a point is to be written.
fn prepare<S: Space>(cut: &Densify<S>, start: Point, end: Point, pieces: u32) -> Option<S::Pair>
    ensures { result ≡ pair_for (S.paired cut.now.space.now start end) pieces }
{
    if pieces < 2 {
        None
    } else {
        cut.space.pair(start, end).ok()
    }
}

// Point `k` of so many pieces.
fn part<S: Space>(cut: &Densify<S>, pair: Option<S::Pair>, k: u32, pieces: u32) -> Point
    ensures { result ≡ part_of (S.between cut.now.space.now) pair (ratio_of k pieces) }
{
    // Every point was asked for before, so none is refused: what stands for a refused one is never written.
    pair.and_then(|pair| cut.space.point_at_ratio(pair, ratio_of(k, pieces)).ok())
        .unwrap_or_default()
}

// The pairs of a line that has a point: the second pass, by the rule of `Densify::ask_pair`, which wrote nothing, so
// that a refusal changes nothing.
fn weave_pairs<S: Space>(table: &mut [Record], head: &mut Head, cut: &Densify<S>)
    requires checked { Checked table.old head.old }
    requires left { head.old.newest < last_edit }
    requires some { 0 < head.old.count }
    requires room { Enough
        (parts_in (S.far cut.now.space.now) cut.now.maximum (S.ratio cut.now.space.now))
        table.old head.old }
    ensures { Woven
        (parts_in (S.far cut.now.space.now) cut.now.maximum (S.ratio cut.now.space.now))
        table.old head.old table.new head.new }
{
    let edit = head.newest + 1;
    let pairs = head.count - 1;
    let mut cursor = Cursor::start(table, head);
    let mut start = Point::from(cursor.record());
    cursor.step();
    // No iterator lends the records, as an edit writes where it walks.
    for _ in 0..pairs {
        let end = Point::from(cursor.record());
        let pieces = count_pieces(cut, start, end);
        let pair = prepare(cut, start, end, pieces);
        for k in 1..pieces {
            cursor.insert(part(cut, pair, k, pieces), edit);
        }
        cursor.step();
        start = end;
    }
    head.newest = edit;
}

pub(crate) fn weave<S: Space>(table: &mut [Record], head: &mut Head, cut: &Densify<S>)
    requires checked { Checked table.old head.old }
    requires left { head.old.newest < last_edit }
    requires room { Enough
        (parts_in (S.far cut.now.space.now) cut.now.maximum (S.ratio cut.now.space.now))
        table.old head.old }
    ensures { Woven
        (parts_in (S.far cut.now.space.now) cut.now.maximum (S.ratio cut.now.space.now))
        table.old head.old table.new head.new }
{
    if head.count == 0 {
        head.newest += 1;
    } else {
        weave_pairs(table, head, cut);
    }
}
