//! Where prices and sums stop.
ghost use Rattle.std.specs.Prelude.{◌≡◌};
ghost use Rattle.schemes.specs.Ceiling.{stopped};

pub(crate) const CEILING: u32 = 1_000_000_000;

// A number, or the ceiling if that is smaller.
pub(crate) fn stop(n: u64) -> u32
    ensures { result ≡ stopped n }
{
    n.min(CEILING as u64) as u32
}
