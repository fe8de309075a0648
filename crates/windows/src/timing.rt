//! The times that the floor of a window rests on.
ghost use Rattle.std.specs.Prelude.{◌≤◌};

/// The steps of a sample, the latency, 0 for none as a job has it, and for how many steps an operation of the kind keeps its unit busy.
#[derive(Clone, Copy)]
pub struct Timing {
    pub steps: u8,
    pub latency: u8,
    pub busy: u8,
    ghost few_steps: { steps ≤ 64 },
}

mod raise;
mod rows;
