//! The house library: units whose figures need not be typed in.
ghost use Rattle.std.specs.Prelude.{◌≡◌};
ghost use Rattle.rules.specs.Jobs.{numbered};
ghost use Rattle.rules.specs.Edits.{kind_from};
ghost use Rattle.rules.specs.Library.{house_library, with_cap};
ghost use Rattle.rules.specs.Refusals.{told};

use crate::by_number::numbered;
use crate::kind::{Figures, Kind};
use crate::refusal::Refusal;

/// A unit of the library: the figures of a kind but for its cap.
#[derive(Clone, Copy, PartialEq, Eq, Debug)]
pub struct LibraryUnit {
    pub duration: u8,
    pub busy: u8,
    pub area: u16,
    pub draw: u16,
}

const HOUSE_LIBRARY: [LibraryUnit; 4] = [
    // adder
    LibraryUnit {
        duration: 1,
        busy: 1,
        area: 32,
        draw: 8,
    },
    // ALU
    LibraryUnit {
        duration: 1,
        busy: 1,
        area: 48,
        draw: 12,
    },
    // multiplier
    LibraryUnit {
        duration: 2,
        busy: 2,
        area: 260,
        draw: 70,
    },
    // pipelined multiplier
    LibraryUnit {
        duration: 2,
        busy: 1,
        area: 310,
        draw: 90,
    },
];

impl LibraryUnit {
    // The figures of a kind: the unit's, with a cap. No `From`, since the cap comes beside the unit.
    fn with_cap(self, cap: u8) -> Figures
        ensures { result ≡ with_cap self cap }
    {
        Figures {
            duration: self.duration,
            busy: self.busy,
            cap,
            area: self.area,
            draw: self.draw,
        }
    }
}

// The unit of the house library with this number, from 1.
fn house_unit(number: u8) -> Option<LibraryUnit>
    ensures { result ≡ numbered house_library number }
{
    numbered(&HOUSE_LIBRARY, number)
}

/// The unit of the house library with this number, from 1, as a kind with a cap. Refused: 4 no such number, 1 a cap out of its range.
// a number and a cap, as `Edit::AddLibraryKind` names them
pub fn library_kind(number: u8, cap: u8) -> Result<Kind, Refusal>
    ensures { told result ≡ kind_from (numbered house_library number) cap }
{
    let unit = house_unit(number).ok_or(Refusal::UnknownLibraryUnit)?;
    Kind::try_from(unit.with_cap(cap))
}
