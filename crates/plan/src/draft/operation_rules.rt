//! What an operation owes the others: operands that are done, and no clash.
ghost use Rattle.std.specs.Prelude.{Decides, MatchOption};
ghost use Rattle.rules.specs.declared.operation.Operation.{Operation};
ghost use Rattle.plan.specs.declared.slot.Slot.{Slot};
ghost use Rattle.plan.specs.Plans.{Stands, DoneBy, Apart, Kept};

use super::Draft;
use crate::clashes::clash;
use crate::placement::Placement;
use rules::by_number::numbered;

impl Draft<'_> {
    // The operation with this number, from 1, and its slot, if it has one.
    fn standing(self, number: u8) -> Option<Placement>
        ensures { MatchOption result ((o : Operation) (s : Slot) → Stands self.entry.job.now self.entry.slots.now number o s → ⊥) (λ w. Stands self.entry.job.now self.entry.slots.now number w.operation w.slot) }
    {
        Some(Placement {
            operation: numbered(self.job.operations(), number)?,
            slot: numbered(self.slots, number)?,
        })
    }

    // Whether an operand is an outside input, or done by a start.
    fn is_done(self, operand: u8, start: u8) -> bool
        ensures { Decides result (DoneBy self.entry.job.now self.entry.slots.now operand start) }
    {
        let Some(Placement { operation, slot }) = self.standing(operand) else {
            return true;
        };
        slot.start as u16 + self.job.duration(operation) as u16 <= start as u16
    }

    // Whether an operation at its slot clashes with none of those before the one with this number.
    fn stands_apart(self, number: u8, placement: Placement) -> bool
        ensures { Decides result (Apart self.entry.job.now self.entry.slots.now number placement.operation placement.slot) }
    {
        let operations = self.job.operations();
        // cut to one length, so that a turn tests for one end alone
        let earlier = (number as usize)
            .saturating_sub(1)
            .min(operations.len())
            .min(self.slots.len());
        let mut placed = operations[..earlier].iter().zip(&self.slots[..earlier]);
        placed.all(|(operation, slot)| {
            let before = Placement {
                operation: *operation,
                slot: *slot,
            };
            // the units first: where they differ, no placement is put together
            slot.unit != placement.slot.unit || !clash(self.job, before, placement)
        })
    }

    /// Whether the operation with this number, from 1, if it has a slot, starts when its operands are done and clashes with no earlier one.
    pub fn keeps_rules(self, number: u8) -> bool
        ensures { Decides result (Kept self.entry.job.now self.entry.slots.now number) }
    {
        let Some(placement) = self.standing(number) else {
            return true;
        };
        let Placement { operation, slot } = placement;
        self.is_done(operation.left, slot.start)
            && self.is_done(operation.right, slot.start)
            && self.stands_apart(number, placement)
    }
}
