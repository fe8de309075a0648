//! Ranks: the values of the scheme `Ranked`.
ghost use Rattle.std.specs.Prelude.{◌≤◌};

/// An area and a draw, compared by area and then by draw. Each stops at 1,000,000,000, and if the area reaches that, so does the draw.
#[derive(Clone, Copy, PartialEq, Eq, PartialOrd, Ord, Debug)]
pub struct Rank {
    pub area: u32,
    pub draw: u32,
    ghost area_range: { area ≤ 1000000000 },
    ghost draw_range: { draw ≤ 1000000000 },
    ghost full: { 1000000000 ≤ area → 1000000000 ≤ draw },
}
