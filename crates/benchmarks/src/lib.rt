// The two square roots, for a benchmark in C.
#![tactic(auto)]

ghost use Rattle.std.specs.Prelude.{◌≡◌};
ghost use Rattle.std.specs.Float.{sqrt as root_of, binary64};

use roots::square_root;

#[unsafe(no_mangle)]
pub extern "C" fn certified_square_root(x: f64) -> f64
    ensures { result ≡ root_of binary64 x }
{
    square_root(x)
}

#[unsafe(no_mangle)]
pub extern "C" fn library_square_root(x: f64) -> f64
    ensures { result ≡ root_of binary64 x }
{
    x.sqrt()
}
