//! The tables of a job: its kinds, operations and limits, how they are edited, and what is worked out from them.
#![tactic(auto)]

pub mod tables;
