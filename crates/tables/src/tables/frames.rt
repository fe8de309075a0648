//! Working out the frames: the earliest starts from the first operation on, the latest from the last back.
ghost use Rattle.std.specs.Prelude.{◌≡◌, ◌+◌, ◌<◌, ◌≤◌, ◌∷◌, length};
ghost use Rattle.rules.specs.Frames.{readable, earliests, latests, latests_from};
ghost use Rattle.rules.specs.Jobs.{Valid};

use super::{MOST_OPERATIONS, Tables};
use arrayvec::ArrayVec;
use rules::by_number::numbered;
use rules::operation::Operation;

// When an operand can be read, where it is told when each earlier operation can: an outside input at step 1.
fn readable(ready: &[u16], operand: u8) -> u16
    ensures { result ≡ readable ready.now operand }
{
    numbered(ready, operand).unwrap_or(1)
}

// The same starts in a vector.
fn vector_of(starts: &[i16]) -> ArrayVec<i16, MOST_OPERATIONS>
    requires { length starts.now ≤ 64 }
    ensures { result.items ≡ starts.now }
{
    let mut vector = ArrayVec::new();
    for start in starts {
        vector.push(*start);
    }
    vector
}

impl Tables {
    /// The earliest start of each operation, in the order of their numbers.
    pub fn earliest_starts(&self) -> ArrayVec<u16, MOST_OPERATIONS>
        ensures exact { result.items ≡ earliests self.now }
        ensures valid { Valid self.now }
    {
        let mut starts = ArrayVec::new();
        // beside the starts, since it is asked for here alone
        let mut ready = ArrayVec::<u16, MOST_OPERATIONS>::new();
        for operation in self.operations() {
            let left = readable(ready.as_slice(), operation.left);
            let right = readable(ready.as_slice(), operation.right);
            let start = left.max(right);
            starts.push(start);
            ready.push(start + self.duration(*operation) as u16);
        }
        starts
    }

    // The latest start of the operation with this number, where those of the later ones are known.
    fn latest_start(
        &self,
        number: u8,
        operation: Operation,
        later: &[Operation],
        starts: &[i16],
    ) -> i16
        requires few { length later.now < 64 }
        requires known { starts.now ≡ latests_from self.now (number + 1) later.now }
        ensures { result ∷ starts.now ≡ latests_from self.now number (operation ∷ later.now) }
    {
        let duration = self.duration(operation) as i16;
        let mut latest = self.steps as i16 - duration + 1;
        // cut to one length, so that a turn tests for one end alone
        let users = &later[..starts.len()];
        for (user, start) in users.iter().zip(starts) {
            if user.left == number || user.right == number {
                latest = latest.min(*start - duration);
            }
        }
        latest
    }

    /// The latest start of each operation, in the order of their numbers.
    pub fn latest_starts(&self) -> ArrayVec<i16, MOST_OPERATIONS>
        ensures exact { result.items ≡ latests self.now }
        ensures valid { Valid self.now }
    {
        let operations = self.operations();
        // from the end of an array back: to put each before the others in a vector would move all of them
        let mut rows = [0; MOST_OPERATIONS];
        let mut first = MOST_OPERATIONS;
        // with its number, since those after it are a slice of the same operations
        for (i, operation) in operations.iter().enumerate().rev() {
            let start = self.latest_start(
                i as u8 + 1,
                *operation,
                &operations[i + 1..],
                &rows[first..],
            );
            first -= 1;
            rows[first] = start;
        }
        vector_of(&rows[first..])
    }
}
