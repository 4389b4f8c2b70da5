// Batches that an earlier run left open at the nodes of a ledger.
ghost use Rattle.file_runs.specs.Ledgers.{IsChecked};
ghost use Rattle.rack_runs.specs.Resuming.{HasResumed};

use file_runs::{Ledger, lend};
use lane_driver::LaneFault;
use ledger_runs::resume_all;
use outside::{Disk, Gate};
use recovery::ResumedBatch;
use std::alloc::Global;
use std::sync::Wait;

/// A ledger behind the resuming of its lanes, and the batches that were open, or the least lane's fault.
pub(crate) struct ResumeRun<D: Disk> {
    pub ledger: Ledger<D>,
    pub came: Result<Vec<ResumedBatch>, LaneFault>,
}

/// Brings the open batches of a ledger to their end, as `resume_all` does, and gives the ledger back.
pub(crate) fn resume_ledger<W: Wait, D: Disk, G: Gate>(
    rt: &W,
    alloc: Global,
    ledger: Ledger<D>,
    gate: &G,
) -> ResumeRun<D>
    requires checked { IsChecked ledger }
    ensures { HasResumed D.Disk ledger result.ledger result.came }
{
    let mut lent = lend(rt, ledger);
    let came = resume_all(alloc, &mut lent, gate);
    ResumeRun {
        ledger: lent.take_back(),
        came,
    }
}
