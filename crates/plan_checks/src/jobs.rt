//! Jobs and plans for the tests.
use job::{Figures, Job, Operation};
use plan::{Draft, Placement, Slot};
use std::process::Abort;
use std::test::Fail;

// Every row is true; the first that is not is told.
pub(crate) fn all(rt: &impl Abort, rows: &[(bool, &'static str)]) {
    for (held, what) in rows {
        assert!(rt; *held, "{}", what);
    }
}

// A kind done in one step, of which there may be 4 units.
pub(crate) const PLAIN: Figures = Figures {
    duration: 1,
    busy: 1,
    cap: 4,
    area: 10,
    draw: 5,
};

pub(crate) fn at(start: u8, unit: u8) -> Slot {
    Slot { start, unit }
}

// An operation of a kind, at a start and on a unit.
pub(crate) fn placed(kind: u8, start: u8, unit: u8) -> Placement {
    Placement {
        operation: Operation {
            kind,
            left: 0,
            right: 0,
        },
        slot: at(start, unit),
    }
}

pub(crate) fn draft<'a>(job: &'a Job, slots: &'a [Slot]) -> Draft<'a> {
    Draft { job, slots }
}

// Adds operations, each by its kind and its operands.
pub(crate) fn add_operations(job: &mut Job, rows: &[(u8, u8, u8)]) -> Result<(), Fail> {
    for (kind, left, right) in rows {
        job.add_operation(Operation {
            kind: *kind,
            left: *left,
            right: *right,
        })?;
    }
    Ok(())
}

// One step of the solution of a differential equation: 5 additions on ALUs, kind 1, and 6 products on a multiplier of the
// library, kind 2; at most 4 units of each.
pub(crate) fn differential_equation(multiplier: u8, steps: u8, latency: u8) -> Result<Job, Fail> {
    let mut job = Job::new();
    job.add_library_kind(2, 4)?;
    job.add_library_kind(multiplier, 4)?;
    job.set_limits(steps, latency)?;
    add_operations(
        &mut job,
        &[
            (2, 0, 0),
            (2, 0, 0),
            (2, 0, 0),
            (2, 0, 0),
            (1, 0, 0),
            (2, 3, 0),
            (2, 1, 2),
            (1, 4, 0),
            (1, 5, 0),
            (1, 7, 0),
            (1, 10, 6),
        ],
    )?;
    Ok(job)
}

// A plan of it with multipliers that are busy for both of their steps, in 7 steps at latency 4.
pub(crate) fn plan_at_latency_4() -> [Slot; 11] {
    [
        at(1, 1),
        at(1, 2),
        at(1, 3),
        at(3, 1),
        at(1, 1),
        at(3, 2),
        at(3, 3),
        at(5, 2),
        at(2, 1),
        at(6, 2),
        at(7, 1),
    ]
}

// A plan of it with pipelined multipliers, in 7 steps at latency 3.
pub(crate) fn pipelined_plan() -> [Slot; 11] {
    [
        at(1, 1),
        at(1, 2),
        at(2, 1),
        at(3, 1),
        at(1, 1),
        at(5, 2),
        at(3, 2),
        at(5, 1),
        at(2, 2),
        at(6, 1),
        at(7, 2),
    ]
}
