// The length of a line of any make, in a space of any make.
ghost use Rattle.std.specs.Prelude.{◌≡◌, ◌≤◌, length as count_of};
ghost use Rattle.measures.specs.Length.{total_of, finite_total, length_of};

use points::coords::{CoordsIter, given_count};
use points::fault::{Cause, Fault, Layer, at_place, in_layer};
use spaces::space::Space;

// The distances of the neighbours, added up in line order. That a place fits is asked of the callers, whom
// `given_count` has just told, here and in a densify: a line of its own type would be walked through that type.
#[tactic(auto, using(crate::proofs::Neighbours::total_neighbours))]
fn total<S: Space, L: CoordsIter>(space: &S, line: &mut L) -> Result<f64, Fault>
    requires { count_of (L.coords line.old) ≤ 65535 }
    ensures line { L.coords line.new ≡ L.coords line.old }
    ensures total { result ≡ total_of (S.far space.now) (L.coords line.old) }
{
    let mut sum = 0.0;
    for (k, (start, end)) in line.lines_iter().enumerate() {
        sum += at_place(space.distance(start, end), k + 1)?;
    }
    Ok(sum)
}

fn finite_total(total: f64) -> Result<f64, Cause>
    ensures { result ≡ finite_total total }
{
    if total.is_finite() {
        Ok(total)
    } else {
        Err(Cause::BadResult)
    }
}

pub fn length<S: Space, L: CoordsIter>(space: &S, line: &mut L) -> Result<f64, Fault>
    ensures line { L.coords line.new ≡ L.coords line.old }
    ensures length { result ≡ length_of (S.far space.now) (L.coords line.old) }
{
    in_layer(given_count(line), Layer::Line)?;
    let total = total(space, line)?;
    in_layer(finite_total(total), Layer::Line)
}
