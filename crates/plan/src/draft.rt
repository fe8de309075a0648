//! Drafts: plans in the making.

use crate::slot::Slot;
use job::Job;

/// A draft of a plan: a job, and slots for its first operations, in the order of their numbers.
// No model: plain data, of which every clause names both parts.
#[derive(Clone, Copy)]
pub struct Draft<'a> {
    pub job: &'a Job,
    pub slots: &'a [Slot],
}

mod check;
mod operation_rules;
mod units;
