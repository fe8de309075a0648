//! Clashes: two operations that would have one unit busy with both of them in one step.
ghost use Rattle.std.specs.Prelude.{◌≡◌, Decides};
ghost use Rattle.plan.specs.Distance.{distance};
ghost use Rattle.plan.specs.Plans.{Meet, Clash};

use crate::placement::Placement;
use job::Job;

// How far two starts are apart, in one sample or, with a latency, going round it. Latency 0 is none, as a job has it.
fn distance(latency: u8, a: u8, b: u8) -> u8
    ensures { result ≡ distance latency a b }
{
    let apart = a.abs_diff(b);
    if latency == 0 {
        return apart;
    }
    let behind = apart % latency;
    behind.min(latency - behind)
}

// Whether the busy steps from a start at `a` meet those from a start at `b`.
fn busy_steps_meet(latency: u8, busy: u8, a: u8, b: u8) -> bool
    ensures { Decides result (Meet latency busy a b) }
{
    distance(latency, a, b) < busy
}

/// Whether two operations clash, each at its slot: they are of one kind and on one unit, and for some i and k below the busy time
/// of that kind, step i of the one and step k of the other are equal or, with a latency above 0, leave the same remainder by it.
pub fn clash(job: &Job, first: Placement, second: Placement) -> bool
    ensures { Decides result (Clash job.now first.operation first.slot second.operation second.slot) }
{
    if first.operation.kind != second.operation.kind || first.slot.unit != second.slot.unit {
        return false;
    }
    job.kind(first.operation.kind).is_some_and(|kind| {
        busy_steps_meet(
            job.latency(),
            kind.busy,
            first.slot.start,
            second.slot.start,
        )
    })
}
