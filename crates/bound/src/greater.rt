//! The larger of two bounds.
ghost use Rattle.floors.specs.Floors.{greater};
ghost use Rattle.floors.proofs.Lawful.{greater_lawful};

use crate::bound::Bound;
use plan::Draft;

/// Two bounds of whatever make, of which the larger floor counts. Bounds pile up so.
#[derive(Drop)]
pub struct Greater<A, B> {
    pub first: A,
    pub second: B,
}

impl<A: Bound, B: Bound> Bound for Greater<A, B> {
    ghost means = { λ g. greater (A.Bound.means g.first) (B.Bound.means g.second) };

    ghost lawful = { λ g. greater_lawful _ _ (A.Bound.lawful g.first) (B.Bound.lawful g.second) };

    fn floor(&self, draft: Draft, kind: u8) -> u16 {
        let first = self.first.floor(draft, kind);
        let second = self.second.floor(draft, kind);
        first.max(second)
    }
}
