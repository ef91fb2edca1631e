// What a space asks of its host.
ghost use Rattle.std.specs.Prelude.{◌≡◌};
ghost use Rattle.hosts.specs.Meaning.{Meaning, answered};
ghost use Rattle.points.specs.Rounded.{zero64};

use points::fault::{Cause, Fault, Layer};

// The six functions, by their numbers.
#[derive(Clone, Copy, Debug, PartialEq)]
pub enum Function {
    Sqrt = 1,
    Hypot = 2,
    Sin = 3,
    Cos = 4,
    Asin = 5,
    Atan2 = 6,
}

// A host means a map from a function and its arguments to a float or to no answer. A function of one argument
// has +0 as its second.
pub trait Host {
    ghost meaning: { Self → Meaning };

    fn sqrt(&self, x: f64) -> Result<f64, Fault>
        ensures { result ≡ answered (meaning self.now Function.Sqrt x zero64) };

    fn hypot(&self, x: f64, y: f64) -> Result<f64, Fault>
        ensures { result ≡ answered (meaning self.now Function.Hypot x y) };

    fn sin(&self, x: f64) -> Result<f64, Fault>
        ensures { result ≡ answered (meaning self.now Function.Sin x zero64) };

    fn cos(&self, x: f64) -> Result<f64, Fault>
        ensures { result ≡ answered (meaning self.now Function.Cos x zero64) };

    fn asin(&self, x: f64) -> Result<f64, Fault>
        ensures { result ≡ answered (meaning self.now Function.Asin x zero64) };

    fn atan2(&self, y: f64, x: f64) -> Result<f64, Fault>
        ensures { result ≡ answered (meaning self.now Function.Atan2 y x) };
}

// The answer, or the refusal of a host that has none.
pub(crate) fn answer(found: Option<f64>) -> Result<f64, Fault>
    ensures { result ≡ answered found }
{
    found.ok_or(Fault::new(Cause::NoAnswer, Layer::Host))
}
