//! Job files: what is loaded, what is refused and where.
use crate::held::{figures, has_kind, has_operation, holds, operation};
use job::Job;
use std::alloc::{AllocError, Global};
use std::test::Fail;

// A file, and what a new job answers to it: it is loaded, or refused with a number and an offset.
#[derive(Drop)]
struct Case {
    what: &'static str,
    file: &'static [u8],
    answer: Result<(), (u8, usize)>,
}

// Whole files, torn records, unknown records, and each refusal behind a first record that ends at offset 5.
const CASES: &[Case] = &[
    Case {
        what: "empty",
        file: &[],
        answer: Err((5, 0)),
    },
    Case {
        what: "version 0",
        file: &[0],
        answer: Err((5, 0)),
    },
    Case {
        what: "version 2",
        file: &[2, 0, 3, 3, 6, 4],
        answer: Err((5, 0)),
    },
    Case {
        what: "no records",
        file: &[1],
        answer: Ok(()),
    },
    Case {
        what: "one record",
        file: &[1, 0, 3, 3, 6, 4],
        answer: Ok(()),
    },
    Case {
        what: "a body cut short",
        file: &[1, 0, 3, 3, 6],
        answer: Err((6, 1)),
    },
    Case {
        what: "one byte of a length",
        file: &[1, 0],
        answer: Err((6, 1)),
    },
    Case {
        what: "one byte left",
        file: &[1, 0, 3, 3, 6, 4, 0],
        answer: Err((6, 6)),
    },
    Case {
        what: "an unknown tag too",
        file: &[1, 0, 9, 5, 0],
        answer: Err((6, 1)),
    },
    Case {
        what: "a fault of the call too",
        file: &[1, 0, 3, 3, 0],
        answer: Err((6, 1)),
    },
    Case {
        what: "the high byte counts",
        file: &[1, 1, 3, 3, 6, 4],
        answer: Err((6, 1)),
    },
    Case {
        what: "length 0",
        file: &[1, 0, 0],
        answer: Err((7, 1)),
    },
    Case {
        what: "a tag alone",
        file: &[1, 0, 1, 3],
        answer: Err((7, 1)),
    },
    Case {
        what: "tag 0",
        file: &[1, 0, 3, 0, 6, 4],
        answer: Err((7, 1)),
    },
    Case {
        what: "tag 5",
        file: &[1, 0, 3, 5, 6, 4],
        answer: Err((7, 1)),
    },
    Case {
        what: "limits one too long",
        file: &[1, 0, 4, 3, 6, 4, 0],
        answer: Err((7, 1)),
    },
    Case {
        what: "limits one too short",
        file: &[1, 0, 2, 3, 6],
        answer: Err((7, 1)),
    },
    Case {
        what: "an operation one too long",
        file: &[1, 0, 5, 2, 1, 0, 0, 0],
        answer: Err((7, 1)),
    },
    Case {
        what: "a library kind one too long",
        file: &[1, 0, 4, 4, 1, 1, 1],
        answer: Err((7, 1)),
    },
    Case {
        what: "a kind one too short",
        file: &[1, 0, 7, 1, 1, 1, 1, 0, 0, 0],
        answer: Err((7, 1)),
    },
    Case {
        what: "busy above duration",
        file: &[1, 0, 3, 3, 6, 1, 0, 8, 1, 1, 2, 4, 0, 0, 0, 0],
        answer: Err((1, 6)),
    },
    Case {
        what: "no steps",
        file: &[1, 0, 3, 3, 6, 1, 0, 3, 3, 0, 1],
        answer: Err((2, 6)),
    },
    Case {
        what: "library number 5",
        file: &[1, 0, 3, 3, 6, 1, 0, 3, 4, 5, 1],
        answer: Err((4, 6)),
    },
    Case {
        what: "torn",
        file: &[1, 0, 3, 3, 6, 1, 0, 3, 3, 6],
        answer: Err((6, 6)),
    },
    Case {
        what: "unknown",
        file: &[1, 0, 3, 3, 6, 1, 0, 2, 9, 9],
        answer: Err((7, 6)),
    },
    Case {
        what: "no such kind",
        file: &[1, 0, 3, 3, 6, 1, 0, 4, 2, 1, 0, 0],
        answer: Err((11, 6)),
    },
    Case {
        what: "its own operand",
        file: &[1, 0, 3, 3, 6, 1, 0, 3, 4, 1, 1, 0, 4, 2, 1, 1, 0],
        answer: Err((12, 11)),
    },
    Case {
        what: "the kind comes second",
        file: &[1, 0, 3, 3, 6, 1, 0, 3, 4, 3, 1],
        answer: Err((13, 6)),
    },
    Case {
        what: "the limits come second",
        file: &[1, 0, 3, 4, 3, 1, 0, 3, 3, 6, 1],
        answer: Err((13, 6)),
    },
];

fn answer(file: &[u8]) -> Result<(), (u8, usize)> {
    Job::new()
        .load(file)
        .map_err(|why| (why.reason.number(), why.offset))
}

// A file of one part, and then another part so many times.
fn repeated(heap: Global, first: &[u8], part: &[u8], times: usize) -> Result<Vec<u8>, AllocError> {
    let mut file = first.to_vec(heap)?;
    for _ in 0..times {
        file.extend_from_slice(part)?;
    }
    Ok(file)
}

#[test]
fn each_file_is_answered(rt: HostRuntime) {
    for case in CASES {
        assert_eq!(rt; answer(case.file), case.answer, "{}", case.what);
    }
}

#[test]
fn long_files(rt: HostRuntime) -> Result<(), Fail> {
    let longest = repeated(rt.alloc(), &[1], &[0, 3, 3, 6, 4], 819)?;
    assert!(rt; longest.len() == 4096);
    assert_eq!(rt; answer(longest.as_slice()), Ok(()));
    let longer = repeated(rt.alloc(), &[1, 0], &[0, 3, 3, 6, 4], 819)?;
    assert!(rt; longer.len() == 4097);
    assert_eq!(rt; answer(longer.as_slice()), Err((5, 0)));
    let kinds = repeated(rt.alloc(), &[1], &[0, 3, 4, 1, 1], 9)?;
    assert_eq!(rt;
        answer(kinds.as_slice()),
        Err((9, 41)),
        "a ninth kind, behind eight of 5 bytes"
    );
    let operations = repeated(rt.alloc(), &[1, 0, 3, 4, 1, 1], &[0, 4, 2, 1, 0, 0], 65)?;
    assert_eq!(rt;
        answer(operations.as_slice()),
        Err((10, 390)),
        "a 65th operation, behind 64 of 6 bytes"
    );
    Ok(())
}

#[test]
fn the_fields_of_each_record(rt: HostRuntime) {
    let mut job = Job::new();
    let file = [
        1, 0, 8, 1, 3, 2, 5, 1, 2, 3, 4, 0, 3, 4, 2, 9, 0, 3, 3, 9, 7, 0, 4, 2, 1, 0, 0, 0, 4, 2,
        2, 0, 1,
    ];
    assert!(rt; job.load(&file).is_ok());
    assert!(rt; holds(&job, 2, 2, 9, 7));
    assert!(rt; has_kind(&job, 0, figures(3, 2, 5, 258, 772)));
    assert!(rt; has_kind(&job, 1, figures(1, 1, 9, 48, 12)));
    assert!(rt; has_operation(&job, 0, operation(1, 0, 0)));
    assert!(rt; has_operation(&job, 1, operation(2, 0, 1)));
}

#[test]
fn loaded_over_another_job(rt: HostRuntime) {
    let mut job = Job::new();
    assert!(rt;
        job.load(&[1, 0, 3, 4, 1, 1, 0, 4, 2, 1, 0, 0, 0, 3, 3, 6, 4])
            .is_ok()
    );
    assert!(rt;
        job.load(&[1, 0, 3, 3, 9, 0, 0, 3, 3, 0, 0]).is_err(),
        "a file at fault in its second record"
    );
    assert!(rt; holds(&job, 1, 1, 6, 4), "the old job stays");
    assert_eq!(rt; job.frame(1).ok(), Some((1, 6)), "the old frame stays");
    assert!(rt; job.load(&[1, 0, 3, 3, 9, 0]).is_ok());
    assert!(rt; holds(&job, 0, 0, 9, 0), "the old job is gone");
}
