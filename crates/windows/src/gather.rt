//! One pass over the operations gathers the stays of those of a kind.
ghost use Rattle.std.specs.Prelude.{◌≡◌, ◌<◌, length, map, pos, slice_index_or};
ghost use Rattle.rules.specs.declared.frame.Frame.{Frame};
ghost use Rattle.windows.specs.Counts.{listed, Inside, StandFor};
ghost use Rattle.windows.specs.Windows.{frames_with, frames, of_kind};

use crate::stay::Stay;
use crate::stays::Stays;
use crate::timing::Timing;
use job::Frame;
use plan::{Draft, Slot};

/// The stays of a kind's operations, and how many operations there are; one that may be busy past the last step has no stay.
#[derive(Drop)]
pub struct Gathered {
    pub stays: Stays,
    pub operations: u8,
}

// The frame of operation i, counted from 0: its start as both ends, where it is placed.
fn frame(placed: &[Slot], frames: &[Frame], i: usize) -> Frame
    requires { i < length frames.now }
    ensures { (result.earliest, result.latest) ≡ slice_index_or (frames_with placed.now (map (λ (f : Frame). f.earliest) frames.now) (map (λ (f : Frame). f.latest) frames.now)) i (0, pos 0) }
{
    match placed.get(i) {
        Some(slot) => Frame {
            earliest: slot.start as u16,
            latest: slot.start as i16,
        },
        None => frames[i],
    }
}

// The stays of the operations of a kind in a draft, and how many operations there are.
pub(crate) fn gather(draft: Draft, kind: u8, timing: Timing) -> Gathered
    ensures kept { StandFor kind timing.busy timing.steps draft.entry.job.now.operations (frames draft.entry.job.now draft.entry.slots.now) (listed result.stays) }
    ensures inside { Inside timing.steps (listed result.stays) }
    ensures operations { result.operations ≡ of_kind kind draft.entry.job.now.operations }
{
    let frames = draft.job.frames();
    let mut stays = Stays::new();
    // counted in the same pass
    let mut operations = 0;
    // by number, with the frame looked up where the kind is right: with three iterators side by side a floor took a sixth
    // to a fifth more instructions
    for (i, operation) in draft.job.operations().iter().enumerate() {
        if operation.kind != kind {
            continue;
        }
        operations += 1;
        if let Some(stay) = Stay::of(frame(draft.slots, frames, i), timing) {
            stays.push(stay);
        }
    }
    Gathered { stays, operations }
}
