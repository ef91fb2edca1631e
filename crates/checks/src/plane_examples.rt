// Examples on the Euclidean plane.
use crate::at;
use hosts::recorded::{Recorded, RecordedHost};
use hosts::series::SeriesHost;
use measures::length::length;
use points::fault::{Cause, Fault, Layer};
use points::walk::{Backward, Forward};
use spaces::euclidean::Euclidean;
use spaces::space::{Space, distance_within};
use std::test::Fail;

#[test]
fn three_and_four_are_five_apart(rt: HostRuntime) {
    let plane = Euclidean { host: SeriesHost };
    assert_eq!(rt; plane.distance(at(0.0, 0.0), at(3.0, 4.0)), Ok(5.0));
    assert_eq!(rt;
        distance_within(&plane, at(0.0, 0.0), at(3.0, 4.0), 5.0),
        Ok(true)
    );
    assert_eq!(rt;
        distance_within(&plane, at(0.0, 0.0), at(3.0, 4.0), 4.5),
        Ok(false)
    );
}

#[test]
fn a_pair_is_asked_at_each_ratio(rt: HostRuntime) -> Result<(), Fail> {
    let plane = Euclidean { host: SeriesHost };
    let pair = plane.pair(at(0.0, 0.0), at(8.0, 4.0))?;
    assert_eq!(rt; plane.point_at_ratio(pair, 0.25), Ok(at(2.0, 1.0)));
    assert_eq!(rt; plane.point_at_ratio(pair, 1.5), Ok(at(12.0, 6.0)));
    assert_eq!(rt;
        plane.point_at_distance_between(at(0.0, 0.0), at(0.0, 8.0), 2.0),
        Ok(at(0.0, 2.0))
    );
    Ok(())
}

#[test]
fn points_outside_the_plane_are_refused(rt: HostRuntime) {
    let plane = Euclidean { host: SeriesHost };
    let refused = Fault::new(Cause::NotAdmitted, Layer::Space);
    assert_eq!(rt;
        plane.distance(at(0.0, 0.0), at(1000000001.0, 0.0)),
        Err(refused)
    );
    let unmeasured = Fault::new(Cause::BadResult, Layer::Space);
    assert_eq!(rt;
        plane.point_at_distance_between(at(1.0, 1.0), at(1.0, 1.0), 1.0),
        Err(unmeasured)
    );
}

#[test]
fn the_first_record_answers(rt: HostRuntime) {
    let records = [
        Recorded {
            function: 2,
            x: 0xC008_0000_0000_0000,
            y: 0xC010_0000_0000_0000,
            answer: 0x3FF0_0000_0000_0000,
        },
        Recorded {
            function: 2,
            x: 0xC008_0000_0000_0000,
            y: 0xC010_0000_0000_0000,
            answer: 0x4014_0000_0000_0000,
        },
    ];
    let plane = Euclidean {
        host: RecordedHost { records: &records },
    };
    assert_eq!(rt; plane.distance(at(0.0, 0.0), at(3.0, 4.0)), Ok(1.0));
    let silent = Fault::new(Cause::NoAnswer, Layer::Host);
    assert_eq!(rt; plane.distance(at(3.0, 4.0), at(0.0, 0.0)), Err(silent));
}

#[test]
fn a_length_adds_up_its_pairs(rt: HostRuntime) {
    let plane = Euclidean { host: SeriesHost };
    let line = [at(0.0, 0.0), at(3.0, 4.0), at(3.0, 10.0)];
    assert_eq!(rt; length(&plane, &mut Forward::new(&line)), Ok(11.0));
    assert_eq!(rt; length(&plane, &mut Backward::new(&line)), Ok(11.0));
    assert_eq!(rt; length(&plane, &mut Forward::new(&line[0..1])), Ok(0.0));
}

#[test]
fn a_refused_pair_is_told(rt: HostRuntime) {
    let plane = Euclidean { host: SeriesHost };
    let line = [at(0.0, 0.0), at(3.0, 4.0), at(3.0, 2000000000.0)];
    let refused = Fault::new(Cause::NotAdmitted, Layer::Space);
    assert_eq!(rt;
        length(&plane, &mut Forward::new(&line)),
        Err(refused.at(2))
    );
    assert_eq!(rt;
        length(&plane, &mut Backward::new(&line)),
        Err(refused.at(1))
    );
}
