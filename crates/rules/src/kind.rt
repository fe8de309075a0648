//! Kinds of unit: their figures, and the ranges that every kind keeps.
ghost use Rattle.std.specs.Prelude.{◌≤◌};

const LONGEST_DURATION: u8 = 8;

const MOST_UNITS: u8 = 64;

/// The figures of a kind as a caller gives them, not tested yet.
#[derive(Clone, Copy, PartialEq, Eq, Debug)]
pub struct Figures {
    /// A result may be used so many steps after its start.
    pub duration: u8,
    /// A unit takes no other operation for so many steps from a start.
    pub busy: u8,
    /// How many units there may be at most.
    pub cap: u8,
    /// What one unit takes of the chip.
    pub area: u16,
    /// What one unit draws of current.
    pub draw: u16,
}

/// A kind of unit, whose figures keep their ranges.
#[derive(Clone, Copy, PartialEq, Eq, Debug)]
pub struct Kind {
    pub duration: u8,
    pub busy: u8,
    pub cap: u8,
    pub area: u16,
    pub draw: u16,
    ghost some_busy: { 1 ≤ busy },
    ghost busy_within: { busy ≤ duration },
    ghost short: { duration ≤ 8 },
    ghost few: { cap ≤ 64 },
    ghost area_range: { area ≤ 65535 },
    ghost draw_range: { draw ≤ 65535 },
}

mod tested;
