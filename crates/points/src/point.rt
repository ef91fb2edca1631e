// A point, and the arithmetic on points.
ghost use Rattle.std.specs.Prelude.{◌≡◌};
ghost use Rattle.points.specs.Finite.{finite_point};
ghost use Rattle.points.specs.Vectors.{sum, difference, multiple, quotient, opposite};

use std::ops::{Add, Div, Mul, Neg, Sub};

// Two coordinates; on a sphere a longitude and a latitude, in degrees.
#[derive(Clone, Copy, Debug, Default, PartialEq)]
pub struct Point {
    pub x: f64,
    pub y: f64,
}

impl Point {
    // Whether both coordinates are finite.
    pub fn is_finite(self) -> bool
        ensures { result ≡ finite_point self }
    {
        self.x.is_finite() && self.y.is_finite()
    }
}

impl Neg for Point {
    type Output = Point;

    ghost neg_gives = { λ p r. r ≡ opposite p };

    fn neg(self) -> Point {
        Point {
            x: -self.x,
            y: -self.y,
        }
    }
}

impl Add for Point {
    type Output = Point;

    ghost add_gives = { λ p q r. r ≡ sum p q };

    fn add(self, rhs: Point) -> Point {
        Point {
            x: self.x + rhs.x,
            y: self.y + rhs.y,
        }
    }
}

impl Sub for Point {
    type Output = Point;

    ghost sub_gives = { λ p q r. r ≡ difference p q };

    fn sub(self, rhs: Point) -> Point {
        Point {
            x: self.x - rhs.x,
            y: self.y - rhs.y,
        }
    }
}

impl Mul<f64> for Point {
    type Output = Point;

    ghost mul_gives = { λ p factor r. r ≡ multiple p factor };

    fn mul(self, factor: f64) -> Point {
        Point {
            x: self.x * factor,
            y: self.y * factor,
        }
    }
}

impl Div<f64> for Point {
    type Output = Point;

    ghost div_gives = { λ p divisor r. r ≡ quotient p divisor };

    fn div(self, divisor: f64) -> Point {
        Point {
            x: self.x / divisor,
            y: self.y / divisor,
        }
    }
}
