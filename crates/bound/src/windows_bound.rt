//! The bound by windows of steps.
ghost use Rattle.windows.specs.Windows.{windows};
ghost use Rattle.floors.proofs.Lawful.{windows_lawful};

use crate::bound::Bound;
use plan::Draft;
use windows::windows_floor;

/// For steps s to e, the operations of the kind that their frames keep busy within these steps need some units; a placed operation
/// has its start as its frame. The greatest need of all windows counts and, where no two operations of the kind can share a unit,
/// their number.
#[derive(Clone, Copy)]
pub struct Windows;

impl Bound for Windows {
    ghost means = { λ _. windows };

    ghost lawful = { λ b. windows_lawful };

    fn floor(&self, draft: Draft, kind: u8) -> u16 {
        windows_floor(draft, kind)
    }
}
