//! A tally of stays by the step where they end.
ghost use Rattle.std.specs.Prelude.{◌≡◌, length, sum};

/// One row for each step, from 0 to the last that a job may have.
pub const STEP_ROWS: usize = 65;

/// How many stays end at each step, and how many there are in all.
#[derive(Drop)]
pub struct Tally {
    pub ends: [u8; STEP_ROWS],
    pub all: u8,
    ghost whole: { length ends ≡ 65 },
    ghost added: { all ≡ sum ends },
}

mod count;
