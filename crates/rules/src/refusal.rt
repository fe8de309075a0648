//! Why a call is refused. A refused call leaves everything as it was.
ghost use Rattle.std.specs.Prelude.{◌≡◌};
ghost use Rattle.rules.specs.Refusals.{number};

/// The reason of a refusal. Each is known to users by its number, which counts the cases from 1.
#[derive(Clone, Copy, PartialEq, Eq, Debug)]
pub enum Refusal {
    /// 1: a duration, busy time or cap outside its range.
    FigureOutOfRange,
    /// 2: steps or latency outside their range.
    LimitOutOfRange,
    /// 3: an allowance of no trials, or of more than 65,535.
    AllowanceOutOfRange,
    /// 4: a library number that is not held.
    UnknownLibraryUnit,
    /// 5: a file that is empty, too long or of another version.
    NotAJobFile,
    /// 6: a record that the file ends within.
    TornRecord,
    /// 7: an unknown tag, or a length that is not its tag's.
    UnknownRecord,
    /// 8: a buffer too short for the printed plan.
    ShortBuffer,
    /// 9: a ninth kind.
    TooManyKinds,
    /// 10: a 65th operation.
    TooManyOperations,
    /// 11: an operation of a kind that is not held.
    UnknownKind,
    /// 12: an operand above the operations held.
    UnknownOperand,
    /// 13: a busy time above a latency that is not 0.
    BusyBeyondLatency,
    /// 14: a search with no operations.
    NothingToSearch,
    /// 15: a question about an operation that is not held.
    UnknownOperation,
}

impl Refusal {
    /// The number by which users know the refusal.
    pub fn number(self) -> u8
        ensures { result ≡ number self }
    {
        self as u8 + 1
    }
}

/// A refused job file: why, and the offset of the length of the record at fault, 0 where the file as a whole is.
#[derive(Clone, Copy, PartialEq, Eq, Debug)]
pub struct FileRefusal {
    pub reason: Refusal,
    // 0 and no `Option` for the file as a whole: it is printed so
    pub offset: usize,
}
