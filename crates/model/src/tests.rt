//! Figures, sources, placements and timelines, by example.

use super::figures::Figures;
use super::placing::*;
use super::source::*;
use super::task::*;

fn sound(memory: u32, compute: u32, deadline: u32, period: u32) -> bool {
    Figures::new(memory, compute, deadline, period).is_some()
}

#[test]
fn figures_at_the_edges_of_their_rule(rt: HostRuntime) {
    assert!(rt; sound(2, 3, 8, 10));
    assert!(rt; sound(1, 1, 2, 2));
    assert!(rt; !sound(0, 1, 2, 2));
    assert!(rt; !sound(1, 0, 2, 2));
    assert!(rt; !sound(2, 1, 2, 2));
    assert!(rt; !sound(1, 1, 3, 2));
    assert!(rt; !sound(u32::MAX, 1, u32::MAX, u32::MAX));
    assert!(rt; sound(u32::MAX - 1, 1, u32::MAX, u32::MAX));
}

fn example() -> Task {
    Task {
        number: 1,
        core: 0,
        figures: Figures {
            memory: 2,
            compute: 3,
            deadline: 8,
            period: 10,
        },
    }
}

#[test]
fn jobs_of_a_cycle(rt: HostRuntime) {
    let figures = example().figures;
    assert_eq!(rt; figures.jobs_in(20), Some(2));
    assert_eq!(rt; figures.jobs_in(10), Some(1));
    assert_eq!(rt; figures.jobs_in(25), None);
    assert_eq!(rt; figures.jobs_in(5), None);
}

#[test]
fn listed_offsets(rt: HostRuntime) {
    let both = Listed { bytes: &[0, 3] };
    assert_eq!(rt; both.offset(0), Some(0));
    assert_eq!(rt; both.offset(1), Some(3));
    assert_eq!(rt; both.offset(2), None);
    let one = Listed { bytes: &[0] };
    assert_eq!(rt; one.offset(0), Some(0));
    assert_eq!(rt; one.offset(1), None);
    let cut = Listed { bytes: &[0, 0x80] };
    assert_eq!(rt; cut.offset(0), Some(0));
    assert_eq!(rt; cut.offset(1), None);
    let long = Listed {
        bytes: &[0x80, 0x00, 3],
    };
    assert_eq!(rt; long.offset(0), None);
    assert_eq!(rt; long.offset(1), None);
}

#[test]
fn late_over_late(rt: HostRuntime) {
    let once = Late {
        below: Steady { offset: 2 },
        lag: 3,
    };
    assert_eq!(rt; once.offset(9), Some(5));
    let twice = Late {
        below: once,
        lag: 4,
    };
    assert_eq!(rt; twice.offset(0), Some(9));
    let far = Late {
        below: twice,
        lag: u32::MAX - 8,
    };
    assert_eq!(rt; far.offset(0), Some(u32::MAX));
    let none = Late {
        below: Listed { bytes: &[7] },
        lag: 1,
    };
    assert_eq!(rt; none.offset(0), Some(8));
    assert_eq!(rt; none.offset(1), None);
}

#[test]
fn placements(rt: HostRuntime) {
    let figures = example().figures;
    let mut offsets = [99; 3];
    assert_eq!(rt;
        place(&figures, 2, &Listed { bytes: &[0, 3] }, &mut offsets),
        Ok(())
    );
    assert_eq!(rt; offsets, [0, 3, 99]);
    assert_eq!(rt;
        place(&figures, 2, &Listed { bytes: &[0, 4] }, &mut offsets),
        Err(Misplaced::TooLate { job: 1 })
    );
    assert_eq!(rt; offsets, [0, 4, 99]);
    assert_eq!(rt;
        place(&figures, 2, &Listed { bytes: &[9] }, &mut offsets),
        Err(Misplaced::NoOffset { job: 1 })
    );
    assert_eq!(rt; offsets, [9, 4, 99]);
    assert_eq!(rt;
        place(&figures, 4, &Steady { offset: 0 }, &mut offsets),
        Err(Misplaced::NoRoom)
    );
    assert_eq!(rt; offsets, [9, 4, 99]);
}

#[test]
fn timelines(rt: HostRuntime) {
    let task = example();
    let second = Timeline {
        activation: 10,
        copy: 13,
        release: 15,
        end: 18,
        deadline: 18,
    };
    assert_eq!(rt; task.timeline(&[0, 3], 1), Some(second));
    let fourth = Timeline {
        activation: 30,
        copy: 33,
        release: 35,
        end: 38,
        deadline: 38,
    };
    assert_eq!(rt; task.timeline(&[0, 3], 3), Some(fourth));
    assert_eq!(rt; task.timeline(&[0, 4], 1), None);
    assert_eq!(rt; task.timeline(&[], 0), None);
}
