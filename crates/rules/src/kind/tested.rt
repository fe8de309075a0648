//! A kind from its figures, once they are tested.
ghost use Rattle.std.specs.Prelude.{◌≡◌};
ghost use Rattle.rules.specs.Edits.{kind_of, restarts};
ghost use Rattle.rules.specs.Refusals.{told};

use super::{Figures, Kind, LONGEST_DURATION, MOST_UNITS};
use crate::refusal::Refusal;

/// The kind with these figures. Refused: 1 a duration, a busy time or a cap out of its range.
impl TryFrom<Figures> for Kind {
    type Error = Refusal;

    ghost try_from_gives = { λ f r. told r ≡ kind_of f };

    fn try_from(figures: Figures) -> Result<Self, Refusal> {
        if figures.busy == 0 || figures.busy > figures.duration {
            return Err(Refusal::FigureOutOfRange);
        }
        if figures.duration > LONGEST_DURATION || figures.cap > MOST_UNITS {
            return Err(Refusal::FigureOutOfRange);
        }
        Ok(Kind {
            duration: figures.duration,
            busy: figures.busy,
            cap: figures.cap,
            area: figures.area,
            draw: figures.draw,
        })
    }
}

/// The least kind: done in a step, and no units of it. It stands in the rows of a table that are not filled.
// By hand: beside ghost fields `Default` cannot be derived.
impl Default for Kind {
    ghost is_default = { λ k. (k.duration ≡ 1) × (k.busy ≡ 1) × (k.cap ≡ 0) × (k.area ≡ 0) × (k.draw ≡ 0) };

    fn default() -> Self {
        Kind {
            duration: 1,
            busy: 1,
            cap: 0,
            area: 0,
            draw: 0,
        }
    }
}

impl Kind {
    /// Whether, at a latency, 0 for none as a job has it, a unit of this kind is free again when the next sample comes.
    pub fn restarts_within(&self, latency: u8) -> bool
        ensures { result ≡ restarts latency self.now }
    {
        latency == 0 || self.busy <= latency
    }
}
