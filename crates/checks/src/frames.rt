//! Frames: earliest and latest starts.
use crate::held::{figures, operation};
use job::Job;
use std::process::Abort;
use std::test::Fail;

// A job of one kind with a duration and a busy time, and operations of it by their operands.
fn job_of(duration: u8, busy: u8, steps: u8, operands: &[(u8, u8)]) -> Result<Job, Fail> {
    let mut job = Job::new();
    job.add_kind(figures(duration, busy, 4, 10, 5))?;
    job.set_limits(steps, 0)?;
    for (left, right) in operands {
        job.add_operation(operation(1, *left, *right))?;
    }
    Ok(job)
}

// The operations from the first on have these frames, and there is none behind them.
fn framed(rt: &impl Abort, job: &Job, frames: &[(i16, i16)], what: &'static str) {
    let told = frames.iter().map(|frame| Some(*frame)).chain([None]);
    for (number, frame) in (1..=u8::MAX).zip(told) {
        assert_eq!(rt; job.frame(number).ok(), frame, "{}", what);
    }
    assert_eq!(rt; job.frame(0).ok(), None, "{}", what);
}

#[test]
fn small_jobs(rt: HostRuntime) -> Result<(), Fail> {
    let short_of_steps = job_of(2, 2, 1, &[(0, 0), (1, 0)])?;
    framed(&rt, &short_of_steps, &[(1, -2), (3, 0)], "short of steps");
    let busy_below_duration = job_of(3, 1, 9, &[(0, 0), (0, 1)])?;
    framed(
        &rt,
        &busy_below_duration,
        &[(1, 4), (4, 7)],
        "busy for less than its duration",
    );
    let several_users = job_of(2, 2, 10, &[(0, 0), (1, 0), (2, 1), (0, 1)])?;
    framed(
        &rt,
        &several_users,
        &[(1, 5), (3, 7), (5, 9), (3, 9)],
        "several users",
    );
    Ok(())
}

#[test]
fn frames_follow_the_limits(rt: HostRuntime) -> Result<(), Fail> {
    let mut job = job_of(2, 2, 1, &[(0, 0)])?;
    framed(&rt, &job, &[(1, 0)], "one step");
    job.set_limits(6, 4)?;
    framed(&rt, &job, &[(1, 5)], "more steps");
    assert!(rt; job.set_limits(6, 1).is_err());
    framed(&rt, &job, &[(1, 5)], "a refused change leaves the frame");
    Ok(())
}

#[test]
fn a_long_chain(rt: HostRuntime) -> Result<(), Fail> {
    let mut job = job_of(8, 8, 64, &[])?;
    for n in 0..64 {
        job.add_operation(operation(1, n, n))?;
    }
    assert_eq!(rt; job.frame(1).ok(), Some((1, -447)));
    assert_eq!(rt; job.frame(64).ok(), Some((505, 57)));
    Ok(())
}
