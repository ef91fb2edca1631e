// The host that works its functions out by short series, every operation rounded.
ghost use Rattle.std.specs.Prelude.{◌≡◌};
ghost use Rattle.points.specs.Rounded.{zero64};
ghost use Rattle.hosts.specs.Arc.{ArcRule};
ghost use Rattle.hosts.specs.Circle.{WholeQuarters};
ghost use Rattle.hosts.specs.Meaning.{answered};
ghost use Rattle.hosts.specs.Series.{series_answer};

use crate::host::{Function, Host, answer};
use crate::{arc, circle, length};
use points::fault::Fault;

#[derive(Clone, Copy)]
pub struct SeriesHost;

// Six of one shape, by the names that `Host` has; three carry laws of their own, so no one method serves them all.
impl Host for SeriesHost {
    ghost meaning = { λ _. series_answer };

    fn sqrt(&self, x: f64) -> Result<f64, Fault> {
        answer(length::sqrt(x))
    }

    fn hypot(&self, x: f64, y: f64) -> Result<f64, Fault> {
        answer(length::hypot(x, y))
    }

    #[tactic(auto, using(crate::proofs::Quarters::whole_quarters))]
    fn sin(&self, x: f64) -> Result<f64, Fault>
        ensures answer { result ≡ answered (series_answer Function.Sin x zero64) }
        ensures whole { WholeQuarters }
    {
        answer(circle::sin(x))
    }

    #[tactic(auto, using(crate::proofs::Quarters::whole_quarters))]
    fn cos(&self, x: f64) -> Result<f64, Fault>
        ensures answer { result ≡ answered (series_answer Function.Cos x zero64) }
        ensures whole { WholeQuarters }
    {
        answer(circle::cos(x))
    }

    fn asin(&self, x: f64) -> Result<f64, Fault> {
        answer(arc::asin(x))
    }

    #[tactic(auto, using(crate::proofs::ArcRule::arc_rule))]
    fn atan2(&self, y: f64, x: f64) -> Result<f64, Fault>
        ensures answer { result ≡ answered (series_answer Function.Atan2 y x) }
        ensures rule { ArcRule }
    {
        answer(arc::atan2(y, x))
    }
}
