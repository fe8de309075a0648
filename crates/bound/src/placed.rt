//! The bound that counts the units taken so far.
ghost use Rattle.plan.specs.Units.{units};
ghost use Rattle.floors.proofs.Lawful.{placed_lawful};

use crate::bound::Bound;
use plan::Draft;

/// The highest unit among the operations of the kind that have a slot, 0 if there are none.
#[derive(Clone, Copy)]
pub struct Placed;

impl Bound for Placed {
    ghost means = { λ _. units };

    ghost lawful = { λ b. placed_lawful };

    fn floor(&self, draft: Draft, kind: u8) -> u16 {
        draft.units_of(kind) as u16
    }
}
