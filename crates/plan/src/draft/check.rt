//! Whether a draft is a plan.
ghost use Rattle.std.specs.Prelude.{Decides};
ghost use Rattle.plan.specs.Plans.{Allowed, Fits, Plan};

use super::Draft;
use crate::placement::Placement;
use job::Job;

impl Placement {
    // Whether the slot is one that the operation may have by itself: within the steps, and on a unit within the cap of its kind.
    fn is_allowed(self, job: &Job) -> bool
        ensures { Decides result (Allowed job.now self.operation self.slot) }
    {
        let Placement { operation, slot } = self;
        let Some(kind) = job.kind(operation.kind) else {
            return false;
        };
        slot.start >= 1
            && slot.start as u16 + kind.duration as u16 <= job.steps() as u16 + 1
            && slot.unit >= 1
            && slot.unit <= kind.cap
    }
}

impl Draft<'_> {
    // Whether the operation with this number may have its slot, and keeps the rules with the others.
    fn fits(self, number: u8, placement: Placement) -> bool
        ensures { Decides result (Fits self.entry.job.now self.entry.slots.now number placement.operation placement.slot) }
    {
        placement.is_allowed(self.job) && self.keeps_rules(number)
    }

    /// Whether this is a plan of the job: a slot for each operation, within the steps and the caps, each operation after its
    /// operands are done, and no two of one kind that clash on a unit.
    pub fn is_plan(self) -> bool
        ensures { Decides result (Plan self.entry.job.now self.entry.slots.now) }
    {
        let operations = self.job.operations();
        if self.slots.len() != operations.len() {
            return false;
        }
        (1..=u8::MAX).zip(operations.iter().zip(self.slots)).all(|(number, (operation, slot))| {
            let placement = Placement {
                operation: *operation,
                slot: *slot,
            };
            self.fits(number, placement)
        })
    }
}
