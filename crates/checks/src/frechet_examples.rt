// Examples of the discrete Fréchet distance.
use crate::at;
use frechet::distance::frechet_distance;
use hosts::series::SeriesHost;
use points::fault::{Cause, Fault, Layer};
use points::point::Point;
use points::walk::{Backward, Forward};
use spaces::euclidean::Euclidean;

// With the example's own cells, which it looks at afterwards.
fn apart(a: &[Point], b: &[Point], cells: &mut [f64]) -> Result<f64, Fault> {
    let plane = Euclidean { host: SeriesHost };
    frechet_distance(&plane, &mut Forward::new(a), &mut Forward::new(b), cells)
}

#[test]
fn the_last_row_answers(rt: HostRuntime) {
    let mut cells = [0.0; 2];
    let one = [at(0.0, 0.0)];
    let two = [at(0.0, 0.0), at(3.0, 0.0)];
    assert_eq!(rt; apart(&one, &two, &mut cells), Ok(3.0));
    assert_eq!(rt; apart(&two, &one, &mut cells), Ok(3.0));
}

#[test]
fn a_coupling_waits_where_it_pays(rt: HostRuntime) {
    let mut cells = [0.0; 4];
    let two = [at(0.0, 0.0), at(2.0, 0.0)];
    let three = [at(0.0, 1.0), at(1.0, 1.0), at(2.0, 1.0)];
    assert_eq!(rt; apart(&two, &three, &mut cells), Ok(1.4142135623730951));
}

#[test]
fn a_line_turned_about_is_another(rt: HostRuntime) {
    let mut cells = [0.0; 4];
    let line = [at(0.0, 0.0), at(2.0, 0.0)];
    let plane = Euclidean { host: SeriesHost };
    assert_eq!(rt;
        frechet_distance(
            &plane,
            &mut Forward::new(&line),
            &mut Backward::new(&line),
            &mut cells,
        ),
        Ok(2.0)
    );
}

#[test]
fn an_empty_line_answers_zero(rt: HostRuntime) {
    let mut cells = [7.0; 2];
    let one = [at(5.0, 5.0)];
    assert_eq!(rt; apart(&one, &[], &mut cells), Ok(0.0));
    assert_eq!(rt; cells, [7.0; 2]);
}

#[test]
fn too_few_cells_are_refused(rt: HostRuntime) {
    let mut cells = [7.0; 3];
    let two = [at(0.0, 0.0), at(2.0, 0.0)];
    assert_eq!(rt;
        apart(&two, &two, &mut cells),
        Err(Fault::new(Cause::NoRoom, Layer::Line))
    );
    assert_eq!(rt; cells, [7.0; 3]);
}

#[test]
fn a_refused_cell_leaves_the_cells_before_it(rt: HostRuntime) {
    let mut cells = [7.0; 4];
    let two = [at(0.0, 0.0), at(2000000000.0, 0.0)];
    let three = [at(0.0, 1.0), at(1.0, 1.0), at(2.0, 1.0)];
    let refused = Fault::new(Cause::NotAdmitted, Layer::Space);
    assert_eq!(rt; apart(&two, &three, &mut cells), Err(refused.at(2)));
    assert_eq!(rt; cells, [1.0, 7.0, 7.0, 7.0]);
}
