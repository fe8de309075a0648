//! Schemes of cost: how units are priced, and costs added and compared.
ghost use Rattle.std.specs.Prelude.{◌≡◌};
ghost use Rattle.schemes.specs.Costs.{Meaning, Lawful};

use rules::kind::Kind;

/// A scheme of cost, over values of its own sort. A call answers what the scheme means, never refuses and changes nothing.
pub trait Scheme {
    type Value: Copy;

    ghost means: { Self → Meaning Self.Value };

    /// The cost of nothing.
    fn zero(&self) -> Self::Value
        ensures { result ≡ (means self.now).nothing };

    /// What `count` units of a kind cost.
    fn price(&self, kind: Kind, count: u16) -> Self::Value
        ensures { result ≡ (means self.now).price kind count };

    /// What two costs come to together.
    fn sum(&self, a: Self::Value, b: Self::Value) -> Self::Value
        ensures { result ≡ (means self.now).sum a b };

    /// Whether `a` is at most `b`. No `Ord` of the values, since a scheme has an order of its own.
    fn at_most(&self, a: Self::Value, b: Self::Value) -> bool
        ensures { result ≡ (means self.now).at_most a b };

    ghost lawful: { (s : Self) → Lawful (means s) };
}
