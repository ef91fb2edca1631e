// What a line asks.
use points::point::Point;

// A call and its arguments: first the functions of the series host, then the calls on the Euclidean plane over
// that host.
#[derive(Drop)]
pub enum Question {
    Sqrt(f64),
    Hypot(f64, f64),
    Sin(f64),
    Cos(f64),
    Asin(f64),
    Atan2(f64, f64),
    Distance(Point, Point),
    Ratio(f64, Point, Point),
    Along(f64, Point, Point),
    Length(Vec<Point>),
    Frechet(Vec<Point>, Vec<Point>),
}
