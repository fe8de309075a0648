//! What a job holds.
use job::{Figures, Job, Kind, Operation};

// So many kinds and operations, and these limits.
pub(crate) fn holds(job: &Job, kinds: usize, operations: usize, steps: u8, latency: u8) -> bool {
    job.kinds().len() == kinds
        && job.operations().len() == operations
        && job.steps() == steps
        && job.latency() == latency
}

// Field by field, so that a test does not lean on the conversion that it looks at.
fn figures_of(kind: &Kind) -> Figures {
    Figures {
        duration: kind.duration,
        busy: kind.busy,
        cap: kind.cap,
        area: kind.area,
        draw: kind.draw,
    }
}

// The kind at an index, from 0, has these figures.
pub(crate) fn has_kind(job: &Job, index: usize, figures: Figures) -> bool {
    job.kinds().get(index).map(figures_of) == Some(figures)
}

// The operation at an index, from 0, is this one.
pub(crate) fn has_operation(job: &Job, index: usize, operation: Operation) -> bool {
    job.operations().get(index).copied() == Some(operation)
}

pub(crate) fn figures(duration: u8, busy: u8, cap: u8, area: u16, draw: u16) -> Figures {
    Figures {
        duration,
        busy,
        cap,
        area,
        draw,
    }
}

pub(crate) fn operation(kind: u8, left: u8, right: u8) -> Operation {
    Operation { kind, left, right }
}
