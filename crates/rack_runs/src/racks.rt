// Commands that resume over the ledger on a rack.
ghost use Rattle.std.specs.Prelude.{◌≡◌, ◌≤◌, ℕ, [], All, IfOk, OnOk, IfErr, OnErr};
ghost use Rattle.input_files.specs.Limits.{IsShort};
ghost use Rattle.rack_ledgers.specs.Racked.{disks_in};
ghost use Rattle.rack_laws.specs.Shown.{OfShown};
ghost use Rattle.file_runs.specs.Ledgers.{ledger_journals};
ghost use Rattle.rack_runs.specs.Resuming.{HasResumed};
ghost use Rattle.rack_runs.specs.Runs.{IsRun, IsRecovery, TookLedger, open_turns, file_turns};
ghost use Rattle.rack_runs.specs.Stops.{WhyNoTurns};
ghost use Rattle.rack_runs.specs.Telling.{IsRunTold};
ghost use Rattle.rack_runs.specs.Tests.{WhyNotBegun};
ghost use Rattle.rack_runs.specs.Works.{AllNextFit, AtEntry, entry_ledger, IsLedgerOpened, HasOpenedAndRun, HasDoneWork};
ghost use Rattle.submissions.specs.Checks.{VerdictsOf};

use crate::faults::answer_of;
use crate::files::{NoWork, RunFiles, work_files, work_none};
use crate::nodes::{ledger_of, nodes_of, told_of};
use crate::resuming::{ResumeRun, resume_ledger};
use crate::told::Told;
use crate::works::{Begun, Work, Worked};
use cbdc_types::{Answer, FullTx, List};
use file_runs::{Ledger, Ran, Wave};
use lane_driver::LaneFault;
use outside::{Gate, Rack};
use rack_ledgers::{close_nodes, open_caused};
use recovery::ResumedBatch;
use requests::RunOptions;
use sentinel::Verifier;
use std::alloc::Global;
use std::sync::Wait;
use std::thread::Threads;

/// Opens the ledger on a rack, has the work of a command test it, and brings its open batches to their end for that work. Where that can't be done
/// the disks are back.
///
/// Where the work's own test refuses the ledger, nothing was written: all disks are back unchanged.
pub fn begin_on<W: Wait + Threads + Sync, R: Rack, K: Work, G: Gate>(
    rt: &W,
    alloc: Global,
    rack: &mut R,
    work: &K,
    gate: &G,
) -> Result<Begun<R::Disk>, Answer>
where
    R::Disk: Send,
    requires all { (n : ℕ) → R.can_take rack.old n }
    requires fit { AllNextFit (K.deed work.now) }
    // The nodes were opened as the rack told them at entry, and each record is caused; what the ledger is behind the resuming; and as it was at entry
    // the work's own test let it pass.
    ensures begun { IfOk result (λ b. (e : AtEntry R.Disk) × (e.disks ≡ disks_in R.Rack rack.old)
        × IsLedgerOpened R.Disk.Disk e (R.held rack.new) (R.can_put rack.new) (R.can_take rack.new)
        × HasResumed R.Disk.Disk (entry_ledger e) b.ledger (Ok b.resumed)
        × (K.tests work.now).passes e.header.shape (ledger_journals (entry_ledger e))) }

    // The nodes could not be opened, or a record is not caused, and the disks are back; or a lane met a fault; or the work's own test refuses the
    // ledger, and the disks are back unchanged.
    ensures stopped { IfErr result (WhyNotBegun R.Disk.Disk
        (disks_in R.Rack rack.old) (disks_in R.Rack rack.new)
        (K.deed work.now) (K.tests work.now)) }
    ensures back { OnErr result ((n : ℕ) → R.can_take rack.new n) }
    ensures later { (n : ℕ) → R.count rack.old n ≤ R.count rack.new n }
{
    let nodes = match open_caused(rt, alloc, rack) {
        Ok(nodes) => nodes,
        Err(fault) => return Err(fault),
    };
    let ledger = ledger_of(nodes);
    if let Err(refusal) = work.test(alloc, &ledger) {
        close_nodes(rack, nodes_of(ledger));
        return Err(refusal);
    }
    let ResumeRun { ledger, came } = resume_ledger(rt, alloc, ledger, gate);
    let fault = match came {
        Ok(resumed) => return Ok(Begun { ledger, resumed }),
        Err(fault) => fault,
    };
    let nodes = nodes_of(ledger);
    close_nodes(rack, nodes);
    Err(answer_of(&fault))
}

/// Puts the disks of a ledger back behind the work of a command, and tells the result.
pub fn end_on<R: Rack, K: Work>(
    rack: &mut R,
    work: &K,
    ledger: Ledger<R::Disk>,
    resumed: Vec<ResumedBatch>,
    came: Result<K::Done, LaneFault>,
) -> Result<Told<K::Done>, Answer>
    // The ledger was begun so on this rack, and the work was done behind that.
    requires come { (e : AtEntry R.Disk) × HasOpenedAndRun R.Disk.Disk (K.deed work.now) e
        (R.held rack.old) (R.can_put rack.old) (R.can_take rack.old) ledger resumed.items came }
    requires fit { AllNextFit (K.deed work.now) }
    ensures done { (e : AtEntry R.Disk) → HasOpenedAndRun R.Disk.Disk (K.deed work.now) e
        (R.held rack.old) (R.can_put rack.old) (R.can_take rack.old) ledger resumed.items came
        → HasDoneWork R.Disk.Disk e.disks (disks_in R.Rack rack.new) (K.deed work.now) result }
    ensures back { (n : ℕ) → R.can_take rack.new n }
    ensures later { (n : ℕ) → R.count rack.old n ≤ R.count rack.new n }
{
    let nodes = nodes_of(ledger);
    let told = told_of(resumed, came, nodes.shards.as_slice());
    close_nodes(rack, nodes);
    told
}

// What a run tells.
fn ran_of(told: Told<Vec<Wave>>) -> Ran
    ensures { (result.resumed ≡ told.resumed) × (result.waves ≡ told.done) × (result.unspent ≡ told.unspent) }
{
    let Told {
        resumed,
        done,
        unspent,
    } = told;
    Ran {
        resumed,
        waves: done,
        unspent,
    }
}

// What a recovery tells, which is what a run of no files does.
fn recovered_of(alloc: Global, told: Told<()>) -> Ran
    ensures { (result.resumed ≡ told.resumed) × (result.waves.items ≡ []) × (result.unspent ≡ told.unspent) }
{
    let Told {
        resumed,
        done: _,
        unspent,
    } = told;
    Ran {
        resumed,
        waves: Vec::new(alloc),
        unspent,
    }
}

/// Opens the ledger on a rack, brings its open batches to their end, runs client files and puts all disks back. Where `watch` says so an auditor looks
/// at one node after another beside the lanes of the first file; what it saw stands with that file's wave.
pub fn run_on<W: Wait + Threads + Sync, R: Rack, V: Verifier + Sync, G: Gate + Sync>(
    rt: &W,
    alloc: Global,
    rack: &mut R,
    files: &[List<FullTx>],
    verifier: &V,
    options: RunOptions,
    watch: bool,
    gate: &G,
) -> Result<Ran, Answer>
where
    R::Disk: Send,
    requires all { (n : ℕ) → R.can_take rack.old n }
    requires short { All (λ txs. All IsShort txs) files.now }
    // The rack showed a ledger, each record of its history is caused by what stands before it, and the disks had the room that is kept for its
    // open batches. Its journals have grown at their ends by records that are caused too, and where all disks told each holds just its own; in
    // each place there is as much room as there was, and so for its journal and for what is kept. The disks that are no nodes of it are as they were.
    ensures caused { OnOk result (TookLedger R.Disk.Disk (R.held rack.old) (R.held rack.new)) }

    // Where that ledger was kept, it has its open batches at their end and the files' waves behind them, and each disk holds its journal.
    ensures ran { OnOk result (OfShown R.Disk.Disk (R.held rack.old)
        (IsRun R.Disk.Disk (R.held rack.new) (V.verdict_of verifier.now) files.now)) }

    // And what was done is told: the batches that were open, the result of each submission, and how many hashes are unspent now.
    ensures told { IfOk result (λ r. OfShown R.Disk.Disk (R.held rack.old)
        (IsRunTold R.Disk.Disk (R.held rack.new) (V.verdict_of verifier.now) files.now r)) }

    // The nodes could not be opened, or a record is not caused, and the disks are back; or the rack showed such a ledger and a lane met a fault, which
    // has its cause and is that of the least lane that met one. What that leaves stands at `IsLaneFault`.
    ensures stopped { IfErr result (WhyNoTurns R.Disk.Disk
        (disks_in R.Rack rack.old) (disks_in R.Rack rack.new)
        (file_turns (V.verdict_of verifier.now) files.now)) }

    ensures back { (n : ℕ) → R.can_take rack.new n }
    ensures later { (n : ℕ) → R.count rack.old n ≤ R.count rack.new n }
{
    let work = RunFiles { files, verifier };
    let Begun { ledger, resumed } = match begin_on(rt, alloc, rack, &work, gate) {
        Ok(begun) => begun,
        Err(fault) => return Err(fault),
    };
    let Worked { ledger, came } = work_files(
        rt, alloc, ledger, files, verifier, options, watch, gate,
    );
    match end_on(rack, &work, ledger, resumed, came) {
        Ok(told) => Ok(ran_of(told)),
        Err(fault) => Err(fault),
    }
}

/// Opens the ledger on a rack, brings its open batches to their end and puts all disks back.
pub fn recover_on<W: Wait + Threads + Sync, R: Rack, G: Gate + Sync>(
    rt: &W,
    alloc: Global,
    rack: &mut R,
    gate: &G,
) -> Result<Ran, Answer>
where
    R::Disk: Send,
    requires all { (n : ℕ) → R.can_take rack.old n }
    ensures caused { OnOk result (TookLedger R.Disk.Disk (R.held rack.old) (R.held rack.new)) }
    ensures recovered { OnOk result (OfShown R.Disk.Disk (R.held rack.old)
        (IsRecovery R.Disk.Disk (R.held rack.new))) }
    ensures told { IfOk result (λ r. (verdicts : VerdictsOf)
        × OfShown R.Disk.Disk (R.held rack.old) (IsRunTold R.Disk.Disk (R.held rack.new) verdicts [] r)) }
    ensures stopped { IfErr result (WhyNoTurns R.Disk.Disk
        (disks_in R.Rack rack.old) (disks_in R.Rack rack.new) open_turns) }
    ensures back { (n : ℕ) → R.can_take rack.new n }
    ensures later { (n : ℕ) → R.count rack.old n ≤ R.count rack.new n }
{
    let Begun { ledger, resumed } = match begin_on(rt, alloc, rack, &NoWork, gate) {
        Ok(begun) => begun,
        Err(fault) => return Err(fault),
    };
    let Worked { ledger, came } = work_none(ledger);
    match end_on(rack, &NoWork, ledger, resumed, came) {
        Ok(told) => Ok(recovered_of(alloc, told)),
        Err(fault) => Err(fault),
    }
}
