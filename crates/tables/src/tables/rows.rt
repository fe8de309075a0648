//! Reading the tables.
ghost use Rattle.std.specs.Prelude.{◌≡◌};
ghost use Rattle.rules.specs.Jobs.{Valid, numbered, duration_of};

use super::Tables;
use rules::by_number::numbered;
use rules::kind::Kind;
use rules::operation::Operation;

// `valid` stands with every call: a model shows its callers nothing of its invariant.
impl Tables {
    /// The kinds, in the order of their numbers.
    pub fn kinds(&self) -> &[Kind]
        ensures exact { result.now ≡ self.now.kinds }
        ensures valid { Valid self.now }
    {
        self.kinds.as_slice()
    }

    /// The operations, in the order of their numbers.
    pub fn operations(&self) -> &[Operation]
        ensures exact { result.now ≡ self.now.operations }
        ensures valid { Valid self.now }
    {
        self.operations.as_slice()
    }

    /// The number of steps of a sample.
    pub fn steps(&self) -> u8
        ensures exact { result ≡ self.now.steps }
        ensures valid { Valid self.now }
    {
        self.steps
    }

    /// The steps from one sample to the next, 0 where a sample is through before the next begins.
    pub fn latency(&self) -> u8
        ensures exact { result ≡ self.now.latency }
        ensures valid { Valid self.now }
    {
        self.latency
    }

    /// The kind with this number, from 1.
    pub fn kind(&self, number: u8) -> Option<Kind>
        ensures exact { result ≡ numbered self.now.kinds number }
        ensures valid { Valid self.now }
    {
        numbered(self.kinds(), number)
    }

    /// The duration of an operation, 0 if its kind is not held.
    // 0 and no `Option`: an operation that is held has its kind, so callers would only put the 0 back.
    pub fn duration(&self, operation: Operation) -> u8
        ensures exact { result ≡ duration_of self.now operation }
        ensures valid { Valid self.now }
    {
        self.kind(operation.kind).map_or(0, |kind| kind.duration)
    }
}
