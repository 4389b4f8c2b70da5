// What `run` does over a ledger, and what `recover` does.
ghost use Rattle.std.specs.Prelude.{All};
ghost use Rattle.cbdc_model.specs.World.{AreIdle};
ghost use Rattle.input_files.specs.Limits.{IsShort};
ghost use Rattle.file_runs.specs.Ledgers.{ledger_journals, IsChecked};
ghost use Rattle.rack_runs.specs.Works.{HasWorked};
ghost use Rattle.rack_runs.specs.Deeds.{files_deed, no_deed};

use crate::works::{Work, Worked};
use cbdc_types::{Answer, FullTx, List};
use file_runs::{FilesRun, Ledger, Wave, run_files};
use outside::{Disk, Gate};
use requests::RunOptions;
use sentinel::Verifier;
use std::alloc::Global;
use std::sync::Wait;
use std::thread::Threads;

/// Client files, one after another.
#[derive(Drop)]
pub(crate) struct RunFiles<'a, V> {
    pub files: &'a [List<FullTx>],
    pub verifier: &'a V,
}

impl<'a, V: Verifier> Work for RunFiles<'a, V> {
    type Done = Vec<Wave>;

    ghost deed = { λ w. files_deed (V.verdict_of w.verifier.now) w.files.now };

    fn test<D: Disk>(&self, _alloc: Global, _ledger: &Ledger<D>) -> Result<(), Answer> {
        Ok(())
    }
}

/// Runs client files over a ledger with no open batch, the first with an auditor beside its lanes if there is to be one.
pub(crate) fn work_files<
    W: Wait + Threads + Sync,
    D: Disk + Send,
    V: Verifier + Sync,
    G: Gate + Sync,
>(
    rt: &W,
    alloc: Global,
    ledger: Ledger<D>,
    files: &[List<FullTx>],
    verifier: &V,
    options: RunOptions,
    watch: bool,
    gate: &G,
) -> Worked<D, Vec<Wave>>
    requires idle { AreIdle ledger.header.shape (ledger_journals ledger) }
    requires short { All (λ txs. All IsShort txs) files.now }
    requires checked { IsChecked ledger }
    ensures { HasWorked D.Disk (files_deed (V.verdict_of verifier.now) files.now)
        ledger result.ledger result.came }
{
    if files.is_empty() {
        return Worked {
            ledger,
            came: Ok(Vec::new(alloc)),
        };
    }
    let marked = ledger.watched(watch);
    let FilesRun { ledger, came } = run_files(rt, alloc, marked, files, verifier, options, gate);
    Worked { ledger, came }
}

/// Nothing.
#[derive(Drop)]
pub(crate) struct NoWork;

impl Work for NoWork {
    type Done = ();

    ghost deed = { λ _. no_deed };

    fn test<D: Disk>(&self, _alloc: Global, _ledger: &Ledger<D>) -> Result<(), Answer> {
        Ok(())
    }
}

/// Gives a ledger with no open batch back.
pub(crate) fn work_none<D: Disk>(ledger: Ledger<D>) -> Worked<D, ()>
    requires idle { AreIdle ledger.header.shape (ledger_journals ledger) }
    requires checked { IsChecked ledger }
    ensures { HasWorked D.Disk no_deed ledger result.ledger result.came }
{
    Worked {
        ledger,
        came: Ok(()),
    }
}
