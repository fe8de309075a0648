//! Editing the tables. Each edit tests in a fixed order, and a refused one leaves the tables as they were.
ghost use Rattle.std.specs.Prelude.{◌≡◌, ◌&&◌, length, Ok, Err, nat_le};
ghost use Rattle.rules.specs.Edits.{with_kind, with_operation, with_limits, all_restart, Became, CarriedOut};
ghost use Rattle.rules.specs.Jobs.{fresh, Valid};
ghost use Rattle.rules.specs.Refusals.{told};

use super::{LONGEST_LATENCY, MOST_STEPS, Tables};
use arrayvec::ArrayVec;
use rules::edit::Edit;
use rules::kind::Kind;
use rules::library::library_kind;
use rules::operation::Operation;
use rules::refusal::Refusal;

// Whether a number of steps and a latency, as `Edit::SetLimits` names them, are such as a job may have.
fn in_range(steps: u8, latency: u8) -> bool
    ensures { result ≡ ((nat_le 1 steps && nat_le steps 64) && nat_le latency 64) }
{
    steps >= 1 && steps <= MOST_STEPS && latency <= LONGEST_LATENCY
}

impl Tables {
    /// No kinds, no operations, one step, latency 0.
    pub fn new() -> Self
        ensures fresh { result ≡ fresh }
        ensures valid { Valid result }
    {
        Tables {
            kinds: ArrayVec::new(),
            operations: ArrayVec::new(),
            steps: 1,
            latency: 0,
        }
    }

    // Adds a kind whose figures are in range.
    fn add_kind(&mut self, kind: Kind) -> Result<(), Refusal>
        ensures { Became self.old (with_kind self.old (Ok kind)) (told result) self.new }
    {
        if self.kinds.is_full() {
            return Err(Refusal::TooManyKinds);
        }
        if !kind.restarts_within(self.latency) {
            return Err(Refusal::BusyBeyondLatency);
        }
        self.kinds.push(kind);
        Ok(())
    }

    // Whether there is a kind with this number.
    fn kind_held(&self, number: u8) -> bool
        ensures { result ≡ (nat_le 1 number && nat_le number (length self.now.kinds)) }
    {
        self.kind(number).is_some()
    }

    // Whether an operand is an outside input, or an operation that is held.
    fn operand_held(&self, operand: u8) -> bool
        ensures { result ≡ nat_le operand (length self.now.operations) }
    {
        operand as usize <= self.operations.len()
    }

    fn add_operation(&mut self, operation: Operation) -> Result<(), Refusal>
        ensures { Became self.old (with_operation self.old operation) (told result) self.new }
    {
        if self.operations.is_full() {
            return Err(Refusal::TooManyOperations);
        }
        if !self.kind_held(operation.kind) {
            return Err(Refusal::UnknownKind);
        }
        if !self.operand_held(operation.left) {
            return Err(Refusal::UnknownOperand);
        }
        if !self.operand_held(operation.right) {
            return Err(Refusal::UnknownOperand);
        }
        self.operations.push(operation);
        Ok(())
    }

    // Whether every kind is free again within a latency.
    fn all_restart(&self, latency: u8) -> bool
        ensures { result ≡ all_restart latency self.now.kinds }
    {
        self.kinds
            .as_slice()
            .iter()
            .all(|kind| kind.restarts_within(latency))
    }

    // steps and a latency, as `Edit::SetLimits` names them
    fn set_limits(&mut self, steps: u8, latency: u8) -> Result<(), Refusal>
        ensures { Became self.old (with_limits self.old steps latency) (told result) self.new }
    {
        if !in_range(steps, latency) {
            return Err(Refusal::LimitOutOfRange);
        }
        if !self.all_restart(latency) {
            return Err(Refusal::BusyBeyondLatency);
        }
        self.steps = steps;
        self.latency = latency;
        Ok(())
    }

    // One edit, or its refusal.
    fn carry_out(&mut self, edit: Edit) -> Result<(), Refusal>
        ensures { CarriedOut self.old edit result self.new }
    {
        match edit {
            Edit::AddKind(figures) => self.add_kind(Kind::try_from(figures)?),
            Edit::AddLibraryKind { number, cap } => self.add_kind(library_kind(number, cap)?),
            Edit::AddOperation(operation) => self.add_operation(operation),
            Edit::SetLimits { steps, latency } => self.set_limits(steps, latency),
        }
    }

    /// Makes one edit, or refuses it and leaves the tables as they were.
    pub fn edit(&mut self, edit: Edit) -> Result<(), Refusal>
        ensures exact { CarriedOut self.old edit result self.new }
        ensures was_valid { Valid self.old }
        ensures valid { Valid self.new }
    {
        // for the ranges alone, before and after
        let _ = self.steps();
        let answer = self.carry_out(edit);
        let _ = self.steps();
        answer
    }
}
