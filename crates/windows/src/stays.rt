//! The stays of the operations of one kind, each linked to the one before it that begins at the same step.
ghost use Rattle.std.specs.Prelude.{◌≡◌, length};
ghost use Rattle.windows.specs.Chains.{Starts, Links};

use crate::stay::Stay;
use crate::tally::STEP_ROWS;
use arrayvec::ArrayVec;
use tables::tables::MOST_OPERATIONS;

/// A stay, and the index of the one before it that begins at the same step, if there is one.
#[derive(Clone, Copy, Default)]
pub struct Linked {
    pub stay: Stay,
    pub before: Option<u8>,
}

/// Stays in the order in which they were added, and for each step the index of the last that begins there.
#[derive(Drop)]
pub struct Stays {
    pub linked: ArrayVec<Linked, MOST_OPERATIONS>,
    pub last: [Option<u8>; STEP_ROWS],
    ghost last_whole: { length last ≡ 65 },
    ghost starts: { Starts last linked.items },
    ghost links: { Links linked.items },
}

mod fill;
