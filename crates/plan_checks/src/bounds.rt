//! The floors of the bounds, those of `Windows` against a plain count over all windows.
use crate::jobs::{
    PLAIN, add_operations, all, at, differential_equation, draft, plan_at_latency_4,
};
use bound::{Bound, Greater, Placed, Windows};
use job::{Figures, Job};
use plan::{Draft, Slot};
use std::process::Abort;
use std::test::Fail;

// Counted plainly, here and below, so as not to lean on the code that is checked.

// How many operations of a kind are busy within steps `first` to `last` alone: an operation with a slot starts there.
fn confined(draft: Draft, kind: u8, busy: i32, first: i32, last: i32) -> usize {
    let job = draft.job;
    let rows = (1..=u8::MAX).zip(job.operations()).enumerate();
    rows.filter(|(i, (number, operation))| {
        let (earliest, latest) = match (draft.slots.get(*i), job.frame(*number)) {
            (Some(slot), _) => (slot.start as i32, slot.start as i32),
            (None, Ok((earliest, latest))) => (earliest as i32, latest as i32),
            (None, Err(_)) => return false,
        };
        operation.kind == kind
            && earliest >= first
            && latest.saturating_add(busy).saturating_sub(1) <= last
    })
    .count()
}

// The floor of one window: the work by the room for it on one unit, rounded up. By hand, so as not to lean on what it checks.
fn window_floor(count: usize, busy: usize, width: usize, latency: usize) -> usize {
    let room = if latency > 0 && latency < width {
        latency
    } else {
        width
    };
    let work = count.saturating_mul(busy);
    if room == 0 {
        return 0;
    }
    let whole = work / room;
    if work % room == 0 {
        whole
    } else {
        whole.saturating_add(1)
    }
}

// How many operations are of a kind.
fn of_kind(job: &Job, kind: u8) -> usize {
    job.operations()
        .iter()
        .filter(|operation| operation.kind == kind)
        .count()
}

// The floor of `Windows`, window by window, from its rule.
fn plain_windows(draft: Draft, kind: u8) -> usize {
    let job = draft.job;
    let busy = job.kind(kind).map_or(0, |row| row.busy);
    let (steps, latency) = (job.steps() as usize, job.latency() as usize);
    let mut floor = 0;
    for first in 1..=steps {
        for last in first..=steps {
            let count = confined(draft, kind, busy as i32, first as i32, last as i32);
            floor = floor.max(window_floor(count, busy as usize, last + 1 - first, latency));
        }
    }
    if latency > 0 && 2 * busy as usize > latency {
        floor = floor.max(of_kind(job, kind));
    }
    floor
}

// Two kinds, by duration and busy time, operations by kind and operands, and a number of steps.
#[derive(Drop)]
struct Shape {
    kinds: [(u8, u8); 2],
    operations: &'static [(u8, u8, u8)],
    steps: u8,
}

const SHAPES: &[Shape] = &[
    Shape {
        kinds: [(2, 2), (1, 1)],
        operations: &[
            (1, 0, 0),
            (1, 0, 0),
            (2, 1, 2),
            (1, 0, 0),
            (2, 3, 4),
            (2, 0, 0),
            (2, 6, 5),
        ],
        steps: 8,
    },
    // too few steps: every frame is empty
    Shape {
        kinds: [(2, 2), (3, 1)],
        operations: &[(1, 0, 0), (1, 1, 0), (2, 2, 1), (1, 3, 0), (2, 4, 4)],
        steps: 5,
    },
    // some frames are empty
    Shape {
        kinds: [(8, 8), (3, 1)],
        operations: &[
            (1, 0, 0),
            (2, 1, 0),
            (1, 2, 0),
            (2, 0, 0),
            (2, 4, 0),
            (1, 0, 0),
        ],
        steps: 17,
    },
    Shape {
        kinds: [(4, 2), (1, 1)],
        operations: &[
            (1, 0, 0),
            (1, 0, 0),
            (1, 0, 0),
            (2, 1, 2),
            (2, 2, 3),
            (1, 4, 5),
            (2, 0, 0),
            (2, 7, 6),
        ],
        steps: 12,
    },
    // one step
    Shape {
        kinds: [(5, 4), (1, 1)],
        operations: &[(2, 0, 0), (2, 0, 0), (1, 2, 0)],
        steps: 1,
    },
];

fn job_of(shape: &Shape) -> Result<Job, Fail> {
    let mut job = Job::new();
    for (duration, busy) in shape.kinds {
        job.add_kind(Figures {
            duration,
            busy,
            cap: 64,
            ..PLAIN
        })?;
    }
    add_operations(&mut job, shape.operations)?;
    Ok(job)
}

// Slots that begin anywhere, the first and the last step and those beyond among them.
fn scattered(steps: u8, seed: u8) -> [Slot; 8] {
    let mut slots = [at(0, 0); 8];
    let mut start = seed;
    for slot in slots.iter_mut() {
        start = start.wrapping_mul(5).wrapping_add(3);
        *slot = at(start % steps.saturating_add(3), 1 + start % 7);
    }
    slots
}

// Compares the floors of both kinds, and of one that is not there, with so many operations placed.
fn floors_agree(rt: &impl Abort, draft: Draft) {
    for kind in 0..4 {
        let floor = Windows.floor(draft, kind) as usize;
        assert_eq!(rt; floor, plain_windows(draft, kind));
    }
}

#[test]
fn windows_as_counted(rt: HostRuntime) -> Result<(), Fail> {
    for shape in SHAPES {
        let mut job = job_of(shape)?;
        for latency in 0..65 {
            if job.set_limits(shape.steps, latency).is_ok() {
                let slots = scattered(shape.steps, latency);
                // drafts of each length, so the number is no index
                for count in 0..slots.len() {
                    floors_agree(&rt, draft(&job, &slots[0..count]));
                }
            }
        }
    }
    Ok(())
}

#[test]
fn three_operations(rt: HostRuntime) -> Result<(), Fail> {
    let mut job = Job::new();
    job.add_kind(Figures {
        duration: 2,
        busy: 2,
        ..PLAIN
    })?;
    add_operations(&mut job, &[(1, 0, 0), (1, 0, 0), (1, 0, 0)])?;
    for (steps, latency, floor) in [(6, 0, 1), (6, 3, 3), (6, 4, 2), (5, 0, 2)] {
        job.set_limits(steps, latency)?;
        assert_eq!(rt; Windows.floor(draft(&job, &[]), 1), floor);
    }
    Ok(())
}

#[test]
fn bounds_pile_up(rt: HostRuntime) -> Result<(), Fail> {
    let job = differential_equation(3, 7, 0)?;
    let slots = plan_at_latency_4();
    let both = Greater {
        first: Placed,
        second: Windows,
    };
    let turned = Greater {
        first: Windows,
        second: Placed,
    };
    let piled = Greater {
        first: Greater {
            first: Placed,
            second: Windows,
        },
        second: Placed,
    };
    let apart = [at(1, 4)];
    all(
        &rt,
        &[
            (
                Placed.floor(draft(&job, &slots[0..3]), 2) == 3,
                "three units placed",
            ),
            (
                Placed.floor(draft(&job, &slots[0..3]), 1) == 0,
                "none placed",
            ),
            (
                Placed.floor(draft(&job, &apart), 2) == 4,
                "the fourth unit placed",
            ),
            (
                Windows.floor(draft(&job, &[]), 2) == 2,
                "two multipliers by windows",
            ),
            (both.floor(draft(&job, &[]), 2) == 2, "the second is larger"),
            (
                both.floor(draft(&job, &apart), 2) == 4,
                "the first is larger",
            ),
            (
                turned.floor(draft(&job, &[]), 2) == 2,
                "the first is larger, turned",
            ),
            (
                turned.floor(draft(&job, &apart), 2) == 4,
                "the second is larger, turned",
            ),
            (
                piled.floor(draft(&job, &[]), 2) == 2,
                "the largest of three, by windows",
            ),
            (
                piled.floor(draft(&job, &apart), 2) == 4,
                "the largest of three, by units",
            ),
        ],
    );
    Ok(())
}
