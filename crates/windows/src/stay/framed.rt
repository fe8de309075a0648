//! The stay of an operation, from its frame.
ghost use Rattle.windows.specs.Counts.{Keeps};

use super::Stay;
use crate::timing::Timing;
use job::Frame;

impl Stay {
    // The stay of an operation with this frame; none where it may be busy past the last step.
    pub(crate) fn of(frame: Frame, timing: Timing) -> Option<Stay>
        ensures { Keeps (frame.earliest, frame.latest) timing.busy timing.steps result }
    {
        let free = frame.latest as i32 + timing.busy as i32;
        if free > timing.steps as i32 + 1 {
            return None;
        }
        let begin = frame.earliest.min(timing.steps as u16) as u8;
        // no `max`, which would be of a signed number, and cast all the same
        let end = if free > 1 { (free - 1) as u8 } else { 0 };
        Some(Stay { begin, end })
    }
}
