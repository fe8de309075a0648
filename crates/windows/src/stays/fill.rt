//! Adding stays.
ghost use Rattle.std.specs.Prelude.{◌≡◌, ◌<◌, [], ◌∷◌, ◌++◌, length};
ghost use Rattle.windows.specs.Counts.{listed};

use super::{Linked, Stays};
use crate::stay::Stay;
use crate::tally::STEP_ROWS;
use arrayvec::ArrayVec;

impl Stays {
    // No stays.
    pub(crate) fn new() -> Self
        ensures { listed result ≡ [] }
    {
        Stays {
            linked: ArrayVec::new(),
            last: [None; STEP_ROWS],
        }
    }

    // Adds a stay, which becomes the last of its step.
    pub(crate) fn push(&mut self, stay: Stay)
        requires { length (listed self.old) < 64 }
        ensures { listed self.new ≡ listed self.old ++ (stay ∷ []) }
    {
        let begin = stay.begin as usize;
        let before = self.last[begin];
        self.last[begin] = Some(self.linked.len() as u8);
        self.linked.push(Linked { stay, before });
    }
}
