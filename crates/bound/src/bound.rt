//! Bounds: how many units of a kind every plan needs that begins with some slots.
ghost use Rattle.std.specs.Prelude.{◌≡◌};
ghost use Rattle.floors.specs.Floors.{Floor, LawfulFloor};

use plan::Draft;

/// A lower bound on the units of a kind, over every plan that begins with the slots of a draft. A call answers what the bound means,
/// for any draft and any number of a kind; it never refuses and changes nothing.
pub trait Bound {
    ghost means: { Self → Floor };

    /// The floor for the kind with this number, from 1, where the first operations of the job have the slots of the draft.
    fn floor(&self, draft: Draft, kind: u8) -> u16
        ensures { result ≡ means self.now draft.entry.job.now draft.entry.slots.now kind };

    ghost lawful: { (b : Self) → LawfulFloor (means b) };
}
