//! Placements: an operation and where it stands.

use crate::slot::Slot;
use job::Operation;

/// An operation, and its slot.
#[derive(Clone, Copy, PartialEq, Eq, Debug)]
pub struct Placement {
    pub operation: Operation,
    pub slot: Slot,
}
