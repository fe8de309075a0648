//! The job file: a version byte, then records, each of which stands for an edit.
#![tactic(auto)]

pub mod read;
mod record;
mod tag;
