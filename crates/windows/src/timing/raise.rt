//! The floor of one window.
ghost use Rattle.std.specs.Prelude.{◌≡◌, ◌≤◌, max};
ghost use Rattle.windows.specs.Windows.{room, rounded_up, window_floor};

use super::Timing;

// The larger of `floor` and `work` by `room`, rounded up.
fn raised(floor: u16, work: u16, room: u8) -> u16
    requires { 1 ≤ room }
    ensures { result ≡ max floor (rounded_up work room) }
{
    // Most floors stay, and `floor.max(..)` of the quotient, tried on the elliptic filter, took a fifth longer.
    if floor as u32 * room as u32 >= work as u32 {
        return floor;
    }
    work.div_ceil(room as u16)
}

impl Timing {
    // For how many of so many steps one unit can be busy: no more than the latency has.
    fn room(self, width: u8) -> u8
        ensures { result ≡ room self.latency width }
    {
        if self.latency == 0 {
            return width;
        }
        width.min(self.latency)
    }

    // The larger of `floor` and the floor of a window of `width` steps that holds `count` operations.
    pub(crate) fn raise(self, floor: u16, width: u8, count: u8) -> u16
        requires { 1 ≤ width }
        ensures { result ≡ max floor (window_floor self.latency self.busy width count) }
    {
        raised(floor, count as u16 * self.busy as u16, self.room(width))
    }
}
