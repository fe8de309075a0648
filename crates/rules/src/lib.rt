//! The rules of a job: kinds of unit, operations, edits, the records of a job file, and why each is refused.
#![tactic(auto)]

pub mod by_number;
pub mod edit;
pub mod frame;
pub mod kind;
pub mod library;
pub mod operation;
pub mod refusal;
