//! Slots: where an operation stands in a plan.

/// A start, in steps from 1, and a unit of the operation's kind, from 1.
#[derive(Clone, Copy, PartialEq, Eq, Debug)]
pub struct Slot {
    pub start: u8,
    pub unit: u8,
}
