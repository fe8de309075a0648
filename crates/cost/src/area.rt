//! The scheme that counts area alone.
ghost use Rattle.schemes.specs.Schemes.{by_area};
ghost use Rattle.schemes.proofs.Lawful.{area_lawful};

use crate::ceiling::stop;
use crate::scheme::Scheme;
use rules::kind::Kind;

/// The price is the area of a unit times their number, the sum is addition, and both stop at 1,000,000,000.
#[derive(Clone, Copy)]
pub struct Area;

impl Scheme for Area {
    type Value = u32;

    ghost means = { λ _. by_area };

    ghost lawful = { λ s. area_lawful };

    fn zero(&self) -> u32 {
        0
    }

    fn price(&self, kind: Kind, count: u16) -> u32 {
        stop(kind.area as u64 * count as u64)
    }

    fn sum(&self, a: u32, b: u32) -> u32 {
        stop(a as u64 + b as u64)
    }

    fn at_most(&self, a: u32, b: u32) -> bool {
        a <= b
    }
}
