//! Calls that change a job: what is accepted, what is refused, and in which order the tests of a call run.
use crate::held::{figures, has_kind, has_operation, holds, operation};
use job::{Edit, Job};
use std::process::Abort;

fn kind(duration: u8, busy: u8, cap: u8) -> Edit {
    Edit::AddKind(figures(duration, busy, cap, 65_535, 65_535))
}

fn library(number: u8, cap: u8) -> Edit {
    Edit::AddLibraryKind { number, cap }
}

fn row(kind: u8, left: u8, right: u8) -> Edit {
    Edit::AddOperation(operation(kind, left, right))
}

fn limits(steps: u8, latency: u8) -> Edit {
    Edit::SetLimits { steps, latency }
}

// Makes the edits in turn; each is accepted, or refused with its number.
fn answered(rt: &impl Abort, job: &mut Job, edits: &[(Edit, Result<(), u8>)]) {
    for (edit, expected) in edits {
        assert_eq!(rt; job.edit(*edit).map_err(|why| why.number()), *expected);
    }
}

#[test]
fn the_ends_of_the_ranges(rt: HostRuntime) {
    let mut job = Job::new();
    assert!(rt; holds(&job, 0, 0, 1, 0), "a new job");
    answered(
        &rt,
        &mut job,
        &[
            (kind(0, 0, 1), Err(1)),
            (kind(9, 1, 1), Err(1)),
            (kind(2, 0, 1), Err(1)),
            (kind(2, 3, 1), Err(1)),
            (kind(1, 1, 65), Err(1)),
            (limits(0, 0), Err(2)),
            (limits(65, 0), Err(2)),
            (limits(1, 65), Err(2)),
        ],
    );
    assert!(rt;
        holds(&job, 0, 0, 1, 0),
        "a refusal leaves the job as it was"
    );
    answered(
        &rt,
        &mut job,
        &[
            (kind(8, 8, 64), Ok(())),
            (kind(1, 1, 0), Ok(())),
            (limits(64, 64), Ok(())),
        ],
    );
    assert!(rt; holds(&job, 2, 0, 64, 64));
}

#[test]
fn the_house_library(rt: HostRuntime) {
    let mut job = Job::new();
    answered(
        &rt,
        &mut job,
        &[
            (library(0, 1), Err(4)),
            (library(5, 1), Err(4)),
            (library(1, 11), Ok(())),
            (library(2, 12), Ok(())),
            (library(3, 13), Ok(())),
            (library(4, 14), Ok(())),
        ],
    );
    assert!(rt; has_kind(&job, 0, figures(1, 1, 11, 32, 8)));
    assert!(rt; has_kind(&job, 1, figures(1, 1, 12, 48, 12)));
    assert!(rt; has_kind(&job, 2, figures(2, 2, 13, 260, 70)));
    assert!(rt; has_kind(&job, 3, figures(2, 1, 14, 310, 90)));
}

#[test]
fn busy_time_and_latency(rt: HostRuntime) {
    let mut job = Job::new();
    answered(
        &rt,
        &mut job,
        &[
            (kind(2, 2, 4), Ok(())),
            (limits(6, 1), Err(13)),
            (limits(6, 2), Ok(())),
            (kind(3, 3, 1), Err(13)),
            (library(4, 1), Ok(())),
            (limits(6, 1), Err(13)),
        ],
    );
    assert!(rt; holds(&job, 2, 0, 6, 2));
}

#[test]
fn two_faults_in_one_call(rt: HostRuntime) {
    let mut job = Job::new();
    answered(
        &rt,
        &mut job,
        &[
            (limits(5, 1), Ok(())),
            (kind(9, 2, 1), Err(1)),
            (library(5, 65), Err(4)),
            (library(3, 65), Err(1)),
        ],
    );
    answered(&rt, &mut job, &[(library(1, 1), Ok(())); 8]);
    answered(
        &rt,
        &mut job,
        &[
            (kind(9, 1, 1), Err(1)),
            (library(0, 1), Err(4)),
            (library(1, 65), Err(1)),
            (kind(2, 2, 1), Err(9)),
            (library(3, 1), Err(9)),
        ],
    );
    assert!(rt; job.kinds().len() == 8);
    let mut slow = Job::new();
    answered(
        &rt,
        &mut slow,
        &[(kind(2, 2, 1), Ok(())), (limits(0, 1), Err(2))],
    );
}

#[test]
fn faults_in_an_operation(rt: HostRuntime) {
    let mut job = Job::new();
    answered(
        &rt,
        &mut job,
        &[
            (row(0, 9, 9), Err(11)),
            (row(1, 0, 0), Err(11)),
            (kind(2, 2, 4), Ok(())),
            (row(2, 0, 0), Err(11)),
            (row(1, 1, 0), Err(12)),
            (row(1, 0, 1), Err(12)),
        ],
    );
    assert!(rt;
        job.operations().len() == 0,
        "a refusal leaves no row behind"
    );
    for n in 0..64 {
        answered(&rt, &mut job, &[(row(1, n, n), Ok(()))]);
    }
    answered(
        &rt,
        &mut job,
        &[(row(1, 0, 0), Err(10)), (row(0, 99, 0), Err(10))],
    );
    assert!(rt; job.operations().len() == 64);
}

#[test]
fn the_single_calls(rt: HostRuntime) {
    let mut job = Job::new();
    assert!(rt; job.add_kind(figures(2, 1, 3, 4, 5)).is_ok());
    assert!(rt; job.add_library_kind(3, 7).is_ok());
    assert!(rt; job.set_limits(9, 6).is_ok());
    assert!(rt; job.add_operation(operation(2, 0, 0)).is_ok());
    assert!(rt; holds(&job, 2, 1, 9, 6));
    assert!(rt; has_kind(&job, 0, figures(2, 1, 3, 4, 5)));
    assert!(rt; has_operation(&job, 0, operation(2, 0, 0)));
    assert_eq!(rt; job.frame(1).ok(), Some((1, 8)));
}
