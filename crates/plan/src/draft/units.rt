//! The units of a kind that a draft takes.
ghost use Rattle.std.specs.Prelude.{◌≡◌};
ghost use Rattle.plan.specs.Units.{units};

use super::Draft;

impl Draft<'_> {
    /// The highest unit among the operations of the kind with this number, from 1, that have a slot; 0 if there are none.
    // 0 and no `Option`: no operation takes no unit.
    pub fn units_of(self, kind: u8) -> u8
        ensures { result ≡ units self.entry.job.now self.entry.slots.now kind }
    {
        let operations = self.job.operations();
        // cut to one length, so that a turn tests for one end alone
        let many = operations.len().min(self.slots.len());
        let placed = operations[..many].iter().zip(&self.slots[..many]);
        placed.fold(0, |highest: u8, (operation, slot)| {
            if operation.kind == kind {
                highest.max(slot.unit)
            } else {
                highest
            }
        })
    }
}
