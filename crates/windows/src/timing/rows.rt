//! The greatest floor of all windows: rows of windows that begin at the same step.
ghost use Rattle.std.specs.Prelude.{◌≡◌, ◌+◌, ◌-◌, ◌≤◌, max, take, sum};
ghost use Rattle.windows.specs.Counts.{listed, held_floor, tallied_floor, Inside};
ghost use Rattle.windows.specs.Windows.{greatest, over_windows};

use super::Timing;
use crate::stays::Stays;
use crate::tally::Tally;

impl Timing {
    // The larger of `floor` and the floors of the windows that begin at `begin`, the widest first.
    fn raise_row(self, floor: u16, begin: u8, tally: &Tally) -> u16
        requires within { (1 ≤ begin) × (begin ≤ self.steps) }
        requires ended { tally.now.all ≡ sum (take (self.steps + 1) tally.now.ends) }
        ensures { result ≡ max floor (greatest (tallied_floor self.latency self.busy tally.now.ends begin) begin (self.steps + 1 - begin)) }
    {
        let mut count = tally.all;
        let mut most = floor;
        // by step, which is no index: it ends the window, and the tally has a row for it; no `..=`, which tests for its end twice
        for end in (begin..self.steps + 1).rev() {
            most = self.raise(most, end + 1 - begin, count);
            count -= tally.ends[end as usize];
        }
        most
    }

    // The greatest floor of all windows. One that begins where no stay does is no better than one that begins a step later.
    pub(crate) fn greatest_floor(self, stays: &Stays) -> u16
        requires { Inside self.steps (listed stays.now) }
        ensures { result ≡ over_windows self.steps (held_floor self.latency self.busy (listed stays.now)) }
    {
        let mut tally = Tally::new();
        let mut most = 0;
        // step by step: the stays that begin at it are taken in
        for begin in (1..=self.steps).rev() {
            if stays.last[begin as usize].is_none() {
                continue;
            }
            tally.take_in(stays, begin);
            most = self.raise_row(most, begin, &tally);
        }
        most
    }
}
