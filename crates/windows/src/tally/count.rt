//! Counting stays.
ghost use Rattle.std.specs.Prelude.{◌≡◌, ◌+◌, ◌<◌, ◌≤◌, slice_index, slice_set};
ghost use Rattle.windows.specs.Counts.{listed, Tallies};

use super::{STEP_ROWS, Tally};
use crate::stays::Stays;

impl Tally {
    // A tally of no stays.
    pub(crate) fn new() -> Self
        ensures { result.all ≡ 0 }
    {
        Tally {
            ends: [0; STEP_ROWS],
            all: 0,
        }
    }

    // Counts one more stay, which ends at `end`.
    fn add(&mut self, end: u8)
        requires range { end ≤ 64 }
        requires few { self.old.all < 255 }
        ensures ends { self.new.ends ≡ slice_set self.old.ends end (slice_index self.old.ends end + 1) }
        ensures all { self.new.all ≡ self.old.all + 1 }
    {
        self.ends[end as usize] += 1;
        self.all += 1;
    }

    // Counts the stays that begin at `step` too, where those that begin later are counted.
    pub(crate) fn take_in(&mut self, stays: &Stays, step: u8)
        requires range { step ≤ 64 }
        requires later { Tallies (step + 1) (listed stays.now) self.old.ends }
        ensures { Tallies step (listed stays.now) self.new.ends }
    {
        // from the last back, each by its link: there is nothing to search, and nothing to sort
        let linked = stays.linked.as_slice();
        let mut next = stays.last[step as usize];
        while let Some(index) = next {
            let found = linked[index as usize];
            self.add(found.stay.end);
            next = found.before;
        }
    }
}
