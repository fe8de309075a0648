//! A job as text: a line for each kind, one for the limits, and a line for each operation with its operands and its frame.
use job::Job;
use std::fmt;

#[derive(Drop)]
pub(crate) struct Listing<'a> {
    pub(crate) job: &'a Job,
}

impl Listing<'_> {
    fn kinds<W: fmt::Write>(&self, f: &mut fmt::Formatter<W>) -> fmt::Result {
        for (number, kind) in (1..).zip(self.job.kinds()) {
            let duration = kind.duration;
            let busy = kind.busy;
            let cap = kind.cap;
            let area = kind.area;
            let draw = kind.draw;
            writeln!(
                f,
                "kind {number} duration {duration} busy {busy} cap {cap} area {area} draw {draw}"
            )?;
        }
        Ok(())
    }

    fn limits<W: fmt::Write>(&self, f: &mut fmt::Formatter<W>) -> fmt::Result {
        let steps = self.job.steps();
        let latency = self.job.latency();
        writeln!(f, "steps {steps} latency {latency}")
    }

    fn operations<W: fmt::Write>(&self, f: &mut fmt::Formatter<W>) -> fmt::Result {
        let rows = self.job.operations().iter().zip(self.job.frames());
        for (number, (operation, frame)) in (1..).zip(rows) {
            let kind = operation.kind;
            let left = operation.left;
            let right = operation.right;
            let earliest = frame.earliest;
            let latest = frame.latest;
            writeln!(
                f,
                "operation {number} kind {kind} operands {left} {right} frame {earliest} to {latest}"
            )?;
        }
        Ok(())
    }
}

impl fmt::Display for Listing<'_> {
    fn fmt<W: fmt::Write>(&self, f: &mut fmt::Formatter<W>) -> fmt::Result {
        self.kinds(f)?;
        self.limits(f)?;
        self.operations(f)
    }
}
