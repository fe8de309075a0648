//! Frames: between which starts an operation may begin.

/// The earliest and the latest start of an operation. The latest may be zero or negative, and before the earliest.
#[derive(Clone, Copy, PartialEq, Eq, Debug, Default)]
pub struct Frame {
    pub earliest: u16,
    pub latest: i16,
}
