//! The floor of a kind.
ghost use Rattle.std.specs.Prelude.{◌≡◌};
ghost use Rattle.rules.specs.Jobs.{figure};
ghost use Rattle.windows.specs.Windows.{windows};

use crate::gather::gather;
use crate::timing::Timing;
use job::Job;
use plan::Draft;

// For how many steps an operation of the kind keeps its unit busy; 0 and no `Option` if the kind is not held, for then no window
// needs a unit.
fn busy_time(job: &Job, kind: u8) -> u8
    ensures { result ≡ figure (λ k. k.busy) job.now.kinds kind }
{
    job.kind(kind).map_or(0, |row| row.busy)
}

/// A lower bound on the units that the kind numbered `kind` needs in any plan that begins with the slots of a draft. The
/// operations that must be busy within some window of steps need that many units there, and where no two operations of the
/// kind can share a unit, each needs its own.
pub fn windows_floor(draft: Draft, kind: u8) -> u16
    ensures { result ≡ windows draft.entry.job.now draft.entry.slots.now kind }
{
    let timing = Timing {
        steps: draft.job.steps(),
        latency: draft.job.latency(),
        busy: busy_time(draft.job, kind),
    };
    let gathered = gather(draft, kind, timing);
    let most = timing.greatest_floor(&gathered.stays);
    if timing.latency > 0 && 2 * timing.busy as u16 > timing.latency as u16 {
        return most.max(gathered.operations as u16);
    }
    most
}
