//! Edits: what changes a job by one row, or its limits.
use crate::kind::Figures;
use crate::operation::Operation;

/// One change of a job. A record of a job file stands for one.
// Numbers with their names, apart, and 0 for no latency: so the records of a job file and the calls lay them down.
#[derive(Clone, Copy, PartialEq, Eq, Debug)]
pub enum Edit {
    /// Adds a kind by its figures.
    AddKind(Figures),
    /// Adds the unit of the house library with this number, from 1, as a kind with this cap.
    AddLibraryKind { number: u8, cap: u8 },
    /// Adds an operation.
    AddOperation(Operation),
    /// Sets the number of steps and the latency.
    SetLimits { steps: u8, latency: u8 },
}
