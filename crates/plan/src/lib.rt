//! Plans of a job: a start and a unit for each operation. What a plan is, whether given slots are one, and the units that they take.
#![tactic(auto)]

mod clashes;
mod draft;
mod placement;
mod slot;

pub use clashes::clash;
pub use draft::Draft;
pub use placement::Placement;
pub use slot::Slot;
