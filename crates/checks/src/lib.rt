// Examples that are proved safe and then run.
#![tactic(auto)]

#[cfg(test)]
use points::point::Point;

#[cfg(test)]
mod frechet_examples;
#[cfg(test)]
mod plan_examples;
#[cfg(test)]
mod plane_examples;
#[cfg(test)]
mod reading_examples;

#[cfg(test)]
fn at(x: f64, y: f64) -> Point {
    Point { x, y }
}
