//! What is a plan, and what clashes.
use crate::jobs::{
    PLAIN, all, at, differential_equation, draft, pipelined_plan, placed, plan_at_latency_4,
};
use job::{Figures, Job};
use plan::{Slot, clash};
use std::process::Abort;
use std::test::Fail;

// Whether a plan is still one after the slot at an index, from 0, was changed.
fn stays_a_plan(job: &Job, mut slots: [Slot; 11], index: usize, slot: Slot) -> bool {
    if let Some(changed) = slots.get_mut(index) {
        *changed = slot;
    }
    draft(job, &slots).is_plan()
}

#[test]
fn known_plans(rt: HostRuntime) -> Result<(), Fail> {
    let job = differential_equation(3, 7, 4)?;
    let pipelined = differential_equation(4, 7, 3)?;
    let slots = plan_at_latency_4();
    all(
        &rt,
        &[
            (draft(&job, &slots).is_plan(), "a plan"),
            (
                draft(&pipelined, &pipelined_plan()).is_plan(),
                "a pipelined plan",
            ),
            (
                !draft(&job, &pipelined_plan()).is_plan(),
                "the plan of another job",
            ),
            (!draft(&job, &slots[0..10]).is_plan(), "a slot short"),
            (!draft(&job, &[]).is_plan(), "no slots"),
            (draft(&Job::new(), &[]).is_plan(), "a job of no operations"),
            (
                !draft(&Job::new(), &[at(1, 1)]).is_plan(),
                "a slot too many",
            ),
        ],
    );
    Ok(())
}

// A changed slot, by its index, and whether there is still a plan at latency 4 and at latency 0.
const CHANGED: &[(usize, u8, u8, bool, bool)] = &[
    // before the first step, past the last, on unit 0, above the cap
    (0, 0, 1, false, false),
    (10, 8, 1, false, false),
    (8, 2, 0, false, false),
    (8, 2, 5, false, false),
    (8, 2, 4, true, true),
    (7, 255, 1, false, false),
    (7, 5, 255, false, false),
    // before its left operand is done, before its right, and just then
    (5, 2, 4, false, false),
    (6, 2, 4, false, false),
    (6, 3, 4, true, true),
    (10, 6, 3, false, false),
    (9, 5, 4, true, true),
    // one unit in one step, and in steps a latency apart
    (4, 2, 1, false, false),
    (3, 2, 1, false, false),
    (7, 5, 1, false, true),
    (7, 6, 1, false, true),
    (7, 7, 3, true, true),
    // operands of its own user
    (3, 5, 1, false, false),
    (8, 1, 3, false, false),
    (0, 1, 4, true, true),
];

#[test]
fn changed_plans(rt: HostRuntime) -> Result<(), Fail> {
    let overlapping = differential_equation(3, 7, 4)?;
    let alone = differential_equation(3, 7, 0)?;
    for (index, start, unit, at_4, at_0) in CHANGED {
        let slot = at(*start, *unit);
        assert_eq!(rt;
            stays_a_plan(&overlapping, plan_at_latency_4(), *index, slot),
            *at_4
        );
        assert_eq!(rt;
            stays_a_plan(&alone, plan_at_latency_4(), *index, slot),
            *at_0
        );
    }
    Ok(())
}

// Whether some busy step of the one is, to a unit, some busy step of the other.
fn meet(latency: u8, busy: u8, a: u8, b: u8) -> bool {
    let same_step = |x: u16, y: u16| {
        x == y || (latency > 0 && x % latency as u16 == y % latency as u16)
    };
    (0..busy).any(|i| (0..busy).any(|k| same_step(a as u16 + i as u16, b as u16 + k as u16)))
}

// Compares the clash test with the rule, at every two starts up to 20.
fn clashes_as_told(rt: &impl Abort, job: &Job, latency: u8, busy: u8) {
    for a in 1..21 {
        for b in 1..21 {
            let told = clash(job, placed(1, a, 2), placed(1, b, 2));
            assert_eq!(rt; told, meet(latency, busy, a, b));
        }
    }
}

#[test]
fn clashes(rt: HostRuntime) -> Result<(), Fail> {
    for busy in 1..6 {
        let mut job = Job::new();
        job.add_kind(Figures {
            duration: 8,
            busy,
            ..PLAIN
        })?;
        for latency in 0..12 {
            if latency == 0 || busy <= latency {
                job.set_limits(64, latency)?;
                clashes_as_told(&rt, &job, latency, busy);
            }
        }
    }
    Ok(())
}

#[test]
fn no_clashes(rt: HostRuntime) -> Result<(), Fail> {
    let job = differential_equation(3, 7, 4)?;
    all(
        &rt,
        &[
            (clash(&job, placed(1, 1, 1), placed(1, 1, 1)), "one step"),
            (!clash(&job, placed(1, 1, 1), placed(1, 1, 2)), "two units"),
            (!clash(&job, placed(1, 1, 1), placed(2, 1, 1)), "two kinds"),
            (
                !clash(&job, placed(3, 1, 1), placed(3, 1, 1)),
                "a kind that the job does not have",
            ),
        ],
    );
    Ok(())
}
