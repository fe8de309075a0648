//! Reads a job file from standard input, and prints the job with the frame of each operation, or why the file is refused.
#![tactic(auto)]

mod input;
mod listing;

use job::Job;
use listing::Listing;

fn run(rt: &HostRuntime) -> anyhow::Result<()> {
    let file = input::read(rt)?;
    let mut job = Job::new();
    match job.load(file.as_slice()) {
        Ok(()) => rt.print(Listing { job: &job })?,
        Err(refusal) => {
            let number = refusal.reason.number();
            let offset = refusal.offset;
            println!(rt; "refused {number} at {offset}")?;
        }
    }
    Ok(())
}

fn main(rt: HostRuntime) -> anyhow::Result<()> {
    run(&rt)
}
