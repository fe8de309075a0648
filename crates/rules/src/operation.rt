//! Operations: what is computed for each sample.

/// An operation of the kind that is numbered `kind`, from 1. An operand is 0 for an outside input, else the number of an earlier operation.
// An operand is a number and no `Option`: the job file and the calls lay 0 down for an outside input.
#[derive(Clone, Copy, PartialEq, Eq, Debug, Default)]
pub struct Operation {
    pub kind: u8,
    pub left: u8,
    pub right: u8,
}
