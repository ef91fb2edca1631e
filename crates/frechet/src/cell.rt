// One cell of the table, from its distance and the cells before it.
ghost use Rattle.std.specs.Prelude.{◌≡◌};
ghost use Rattle.std.specs.Float.Ieee.{lt as below};
ghost use Rattle.couplings.specs.Rows.{larger as largerBy, lesser as lesserBy};
ghost use Rattle.frechet.specs.Row.{cell_of, least_of};

// `<` alone decides: a tie and a NaN leave the one that is named first.
pub(crate) fn less(a: f64, b: f64) -> bool
    ensures { result ≡ below a b }
{
    a < b
}

// A distance joins a path by the larger of the two.
pub(crate) fn join(distance: f64, path: f64) -> f64
    ensures { result ≡ largerBy below distance path }
{
    if less(distance, path) { path } else { distance }
}

fn lesser(a: f64, b: f64) -> f64
    ensures { result ≡ lesserBy below a b }
{
    if less(b, a) { b } else { a }
}

// The lesser of two cells, as far as they exist.
fn least(a: Option<f64>, b: Option<f64>) -> Option<f64>
    ensures { result ≡ least_of a b }
{
    match (a, b) {
        (Some(a), Some(b)) => Some(lesser(a, b)),
        (a, b) => a.or(b),
    }
}

// The cells before: in the row above, above to the left, and to the left.
pub(crate) fn cell(distance: f64, up: Option<f64>, diagonal: Option<f64>, left: Option<f64>) -> f64
    ensures { result ≡ cell_of distance up diagonal left }
{
    least(least(up, diagonal), left).map_or(distance, |path| join(distance, path))
}
