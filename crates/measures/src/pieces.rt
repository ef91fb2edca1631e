// How many pieces the stretch between two neighbours is cut into, and where.
ghost use Rattle.std.specs.Prelude.{◌≡◌, ◌-◌};
ghost use Rattle.measures.specs.Pieces.{is_maximum, checked_maximum, pieces_of, ratio_of};

use points::fault::Cause;
use std::num::saturating_f64_to_u32;

fn is_maximum(maximum: f64) -> bool
    ensures { result ≡ is_maximum maximum }
{
    maximum.is_finite() && 0.0 < maximum
}

// Whether a piece may be so long at most.
pub fn check_maximum(maximum: f64) -> Result<(), Cause>
    ensures { result ≡ checked_maximum maximum }
{
    if is_maximum(maximum) {
        Ok(())
    } else {
        Err(Cause::NotFinite)
    }
}

// How many pieces of at most `maximum` a distance is cut into.
pub fn pieces(distance: f64, maximum: f64) -> Result<u32, Cause>
    ensures { result ≡ pieces_of distance maximum }
{
    let count = (distance / maximum).ceil();
    if count <= 65535.0 {
        Ok(saturating_f64_to_u32(count))
    } else {
        Err(Cause::TooManyPieces)
    }
}

// How many points part so many pieces.
pub fn points_within(pieces: u32) -> u32
    ensures { result ≡ pieces - 1 }
{
    pieces.saturating_sub(1)
}

// Where point `k` of so many pieces lies.
pub fn ratio_of(k: u32, pieces: u32) -> f64
    ensures { result ≡ ratio_of k pieces }
{
    f64::from(k) * (1.0 / f64::from(pieces))
}
