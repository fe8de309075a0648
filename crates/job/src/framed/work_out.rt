//! Working out the frames of a job.
ghost use Rattle.rules.specs.Frames.{FramesOf};

use arrayvec::ArrayVec;
use rules::frame::Frame;
use tables::tables::{MOST_OPERATIONS, Tables};

// The frame of each operation, in the order of their numbers, put in the place of those of before.
// Into the vector that is there, since a new one takes the time of 64 rows, however few the operations are.
pub(super) fn work_out(tables: &Tables, frames: &mut ArrayVec<Frame, MOST_OPERATIONS>)
    ensures { FramesOf tables.now frames.new.items }
{
    let earliest_starts = tables.earliest_starts();
    let latest_starts = tables.latest_starts();
    let starts = earliest_starts
        .as_slice()
        .iter()
        .zip(latest_starts.as_slice());
    frames.clear();
    // by `push`, since to collect takes an allocator
    for (earliest, latest) in starts {
        frames.push(Frame {
            earliest: *earliest,
            latest: *latest,
        });
    }
}
