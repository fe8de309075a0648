//! The tables of a job, within their ranges.
use arrayvec::ArrayVec;
use rules::kind::Kind;
use rules::operation::Operation;
use std::marker::Model;

const MOST_KINDS: usize = 8;

/// How many operations a job holds at most.
pub const MOST_OPERATIONS: usize = 64;

const MOST_STEPS: u8 = 64;

const LONGEST_LATENCY: u8 = 64;

/// Kinds and operations, in the order of their numbers, the number of steps and the latency. Contracts see the job that they make
/// up, which is within the ranges. They lie in the value itself: no call allocates.
#[derive(Drop)]
pub struct Tables {
    kinds: ArrayVec<Kind, MOST_KINDS>,
    operations: ArrayVec<Operation, MOST_OPERATIONS>,
    steps: u8,
    latency: u8,
}

impl Model for Tables {
    ghost use Rattle.rules.specs.Jobs.{Job, Valid};

    ghost Value = { Job };

    ghost use Rattle.tables.specs.Tables.{made_up};

    ghost view = { made_up };

    ghost invariant = { λ t. Valid (made_up t) };
}

mod edits;
mod frames;
mod rows;
