//! The cost of a plan.
ghost use Rattle.std.specs.Prelude.{◌≡◌};
ghost use Rattle.schemes.specs.Costs.{cost};

use crate::scheme::Scheme;
use plan::Draft;
use rules::kind::Kind;

// A cost, and the price of so many units of a kind beside it.
fn plus_units<S: Scheme>(scheme: &S, spent: S::Value, kind: Kind, count: u16) -> S::Value
    ensures { result ≡ (S.Scheme.means scheme.now).sum spent ((S.Scheme.means scheme.now).price kind count) }
{
    let price = scheme.price(kind, count);
    scheme.sum(spent, price)
}

/// What a draft costs under a scheme: zero, plus the price of the units of kind 1, plus that of kind 2, and so on. Every kind of the
/// job counts, also with no units.
pub fn plan_cost<S: Scheme>(scheme: &S, draft: Draft) -> S::Value
    ensures { result ≡ cost (S.Scheme.means scheme.now) draft.entry.job.now draft.entry.slots.now }
{
    (1..=u8::MAX)
        .zip(draft.job.kinds())
        .fold(scheme.zero(), |spent, (number, kind)| {
            plus_units(scheme, spent, *kind, draft.units_of(number) as u16)
        })
}
