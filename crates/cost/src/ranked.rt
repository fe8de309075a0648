//! The scheme that counts area, and draw where areas are equal.
ghost use Rattle.std.specs.Prelude.{◌≡◌};
ghost use Rattle.schemes.specs.Schemes.{rank, by_rank};
ghost use Rattle.schemes.proofs.Lawful.{rank_lawful};

use crate::ceiling::{CEILING, stop};
use crate::scheme::Scheme;
use rules::kind::Kind;
use schemes::rank::Rank;

// An area and a draw, each stopped at the ceiling; where the area reaches it, the draw is at it too.
fn rank_of(area: u64, draw: u64) -> Rank
    ensures { result ≡ rank area draw }
{
    if area < CEILING as u64 {
        Rank {
            area: area as u32,
            draw: stop(draw),
        }
    } else {
        Rank {
            area: CEILING,
            draw: CEILING,
        }
    }
}

/// Area and draw, each priced and added as `Area` does, compared by area and then by draw. A full area makes a full draw.
#[derive(Clone, Copy)]
pub struct Ranked;

impl Scheme for Ranked {
    type Value = Rank;

    ghost means = { λ _. by_rank };

    ghost lawful = { λ s. rank_lawful };

    fn zero(&self) -> Rank {
        rank_of(0, 0)
    }

    fn price(&self, kind: Kind, count: u16) -> Rank {
        rank_of(
            kind.area as u64 * count as u64,
            kind.draw as u64 * count as u64,
        )
    }

    fn sum(&self, a: Rank, b: Rank) -> Rank {
        rank_of(a.area as u64 + b.area as u64, a.draw as u64 + b.draw as u64)
    }

    fn at_most(&self, a: Rank, b: Rank) -> bool {
        a <= b
    }
}
