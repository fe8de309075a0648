//! The calls on a job.
ghost use Rattle.std.specs.Prelude.{◌≡◌, ◌≤◌, ℕ, OnOk, length, map};
ghost use Rattle.rules.specs.Changes.{RangesAreExact};
ghost use Rattle.rules.specs.declared.frame.Frame.{Frame};
ghost use Rattle.rules.specs.declared.edit.Edit.TheVariants.{AddKind, AddLibraryKind, AddOperation, SetLimits};
ghost use Rattle.rules.specs.Edits.{Became, CarriedOut};
ghost use Rattle.rules.specs.Encoding.{FilesStandForEdits};
ghost use Rattle.rules.specs.Files.{loaded, Loads};
ghost use Rattle.rules.specs.Frames.{earliests, latests, frame_of, Framed};
ghost use Rattle.rules.specs.Jobs.{fresh, Valid, numbered, duration_of};
ghost use Rattle.rules.specs.Refusals.{told, told_file};

use super::Job;
use super::work_out::work_out;
use arrayvec::ArrayVec;
use jobfile::read::read_tables;
use rules::by_number::numbered;
use rules::edit::Edit;
use rules::frame::Frame;
use rules::kind::{Figures, Kind};
use rules::operation::Operation;
use rules::refusal::{FileRefusal, Refusal};
use tables::tables::Tables;

// `valid`, and `was_valid` of what was before, stand with every call: a model shows its callers nothing of its invariant.
impl Job {
    /// A job with no kinds, no operations, one step and latency 0.
    pub fn new() -> Self
        ensures fresh { result ≡ fresh }
        ensures valid { Valid result }
        ensures ranges { RangesAreExact }
    {
        Job::of(Tables::new())
    }

    // The job of these tables, its frames worked out.
    fn of(tables: Tables) -> Self
        ensures { result ≡ tables }
    {
        let mut frames = ArrayVec::new();
        work_out(&tables, &mut frames);
        Job { tables, frames }
    }

    /// Makes one edit, or refuses it as the call for that edit does.
    pub fn edit(&mut self, edit: Edit) -> Result<(), Refusal>
        ensures exact { CarriedOut self.old edit result self.new }
        ensures was_valid { Valid self.old }
        ensures valid { Valid self.new }
    {
        self.tables.edit(edit)?;
        work_out(&self.tables, &mut self.frames);
        Ok(())
    }

    /// Adds a kind by its figures. Refused: 1 a figure out of range, 9 a ninth kind, 13 a busy time above a latency that is not 0.
    pub fn add_kind(&mut self, figures: Figures) -> Result<(), Refusal>
        ensures exact { CarriedOut self.old (AddKind figures) result self.new }
        ensures was_valid { Valid self.old }
        ensures valid { Valid self.new }
    {
        self.edit(Edit::AddKind(figures))
    }

    /// Adds a unit of the house library, by its number from 1, as a kind with a cap. Refused: 4 no such number, 1 a cap out of
    /// range, 9 a ninth kind, 13 a busy time above a latency that is not 0.
    // a number and a cap, as `Edit::AddLibraryKind` names them
    pub fn add_library_kind(&mut self, number: u8, cap: u8) -> Result<(), Refusal>
        ensures exact { CarriedOut self.old (AddLibraryKind number cap) result self.new }
        ensures was_valid { Valid self.old }
        ensures valid { Valid self.new }
    {
        self.edit(Edit::AddLibraryKind { number, cap })
    }

    /// Adds an operation. Refused: 10 a 65th operation, 11 a kind that is not held, 12 an operand above the operations held.
    pub fn add_operation(&mut self, operation: Operation) -> Result<(), Refusal>
        ensures exact { CarriedOut self.old (AddOperation operation) result self.new }
        ensures was_valid { Valid self.old }
        ensures valid { Valid self.new }
    {
        self.edit(Edit::AddOperation(operation))
    }

    /// Sets the number of steps and the latency. Refused: 2 one of them out of range, 13 a kind with a busy time above a latency
    /// that is not 0.
    // steps and a latency, as `Edit::SetLimits` names them
    pub fn set_limits(&mut self, steps: u8, latency: u8) -> Result<(), Refusal>
        ensures exact { CarriedOut self.old (SetLimits steps latency) result self.new }
        ensures was_valid { Valid self.old }
        ensures valid { Valid self.new }
    {
        self.edit(Edit::SetLimits { steps, latency })
    }

    /// Loads a job file: its records' edits, in order, on a new job, which then replaces this one. Refused, with the offset of
    /// the length of the first record at fault: 5 not a job file (at 0), 6 a torn record, 7 an unknown one, or what its edit is
    /// refused with.
    pub fn load(&mut self, file: &[u8]) -> Result<(), FileRefusal>
        ensures exact { Became self.old (loaded file.now) (told_file result) self.new }
        ensures was_valid { Valid self.old }
        ensures valid { Valid self.new }
        ensures read { Loads file.now (loaded file.now) }
        ensures stands_for { FilesStandForEdits }
    {
        // for the ranges alone
        let _ = self.steps();
        let tables = read_tables(file)?;
        *self = Job::of(tables);
        Ok(())
    }

    // A pair and no `Frame`: both ends are told as signed numbers.
    /// The frame of an operation by its number from 1: its earliest and its latest start. A latest start may be zero or negative.
    /// Refused: 15 an operation that is not held.
    pub fn frame(&self, number: u8) -> Result<(i16, i16), Refusal>
        ensures exact { told result ≡ frame_of self.now number }
        ensures framed { OnOk result (Framed self.now number) }
        ensures valid { Valid self.now }
    {
        let frame = numbered(self.frames(), number).ok_or(Refusal::UnknownOperation)?;
        Ok((frame.earliest as i16, frame.latest))
    }

    /// The kinds, in the order of their numbers.
    pub fn kinds(&self) -> &[Kind]
        ensures exact { result.now ≡ self.now.kinds }
        ensures valid { Valid self.now }
    {
        self.tables.kinds()
    }

    /// The kind with this number, from 1.
    pub fn kind(&self, number: u8) -> Option<Kind>
        ensures exact { result ≡ numbered self.now.kinds number }
        ensures valid { Valid self.now }
    {
        self.tables.kind(number)
    }

    /// The duration of an operation, 0 if its kind is not held.
    // 0 and no `Option`: an operation that is held has its kind, so callers would only put the 0 back.
    pub fn duration(&self, operation: Operation) -> u8
        ensures exact { result ≡ duration_of self.now operation }
        ensures valid { Valid self.now }
    {
        self.tables.duration(operation)
    }

    /// The operations, in the order of their numbers.
    pub fn operations(&self) -> &[Operation]
        ensures exact { result.now ≡ self.now.operations }
        ensures valid { Valid self.now }
    {
        self.tables.operations()
    }

    /// The frame of each operation, in the order of their numbers.
    pub fn frames(&self) -> &[Frame]
        ensures earliest { map (λ (f : Frame). f.earliest) result.now ≡ earliests self.now }
        ensures latest { map (λ (f : Frame). f.latest) result.now ≡ latests self.now }
        ensures framed { (n : ℕ) → 1 ≤ n → n ≤ length result.now → Framed self.now n }
        ensures valid { Valid self.now }
    {
        // for the ranges alone
        let _ = self.steps();
        self.frames.as_slice()
    }

    /// The number of steps of a sample.
    pub fn steps(&self) -> u8
        ensures exact { result ≡ self.now.steps }
        ensures valid { Valid self.now }
    {
        self.tables.steps()
    }

    /// The steps from one sample to the next, 0 where a sample is through before the next begins.
    pub fn latency(&self) -> u8
        ensures exact { result ≡ self.now.latency }
        ensures valid { Valid self.now }
    {
        self.tables.latency()
    }
}
