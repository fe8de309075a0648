//! A job: its tables, and the frame of each operation.
use arrayvec::ArrayVec;
use rules::frame::Frame;
use std::marker::Model;
use tables::tables::{MOST_OPERATIONS, Tables};

/// What is to be planned: kinds of unit, operations, a number of steps and a latency.
///
/// The frames are worked out anew with every accepted change, so that to ask for one is to read it. A refused call leaves the
/// job as it was, and no call allocates.
#[derive(Drop)]
pub struct Job {
    tables: Tables,
    // the frame of each operation
    frames: ArrayVec<Frame, MOST_OPERATIONS>,
}

impl Model for Job {
    ghost use Rattle.rules.specs.Jobs.{Job as Rows};
    ghost use Rattle.rules.specs.Frames.{FramesOf};

    ghost Value = { Rows };

    ghost view = { λ j. j.tables };

    ghost invariant = { λ j. FramesOf j.tables j.frames.items };
}

mod calls;
mod work_out;
