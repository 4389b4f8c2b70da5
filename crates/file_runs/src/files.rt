// Client files, one after another.
ghost use Rattle.std.specs.Prelude.{All};
ghost use Rattle.cbdc_model.specs.World.{AreIdle};
ghost use Rattle.input_files.specs.Limits.{IsShort};
ghost use Rattle.file_runs.specs.Deeds.{files_deed};
ghost use Rattle.file_runs.specs.Ledgers.{ledger_journals, IsChecked};
ghost use Rattle.file_runs.specs.Stretches.{ledger_sight, Stretch};

use crate::Ledger;
use crate::waves::{FileRun, Wave, run_file};
use cbdc_types::{FullTx, List};
use lane_driver::{LaneFault, no_memory};
use outside::{Disk, Gate};
use requests::RunOptions;
use sentinel::Verifier;
use std::alloc::Global;
use std::sync::Wait;
use std::thread::Threads;

/// A ledger behind client files, and the results.
#[derive(Drop)]
pub struct FilesRun<D: Disk> {
    pub ledger: Ledger<D>,
    pub came: Result<Vec<Wave>, LaneFault>,
}

/// Runs client files over the nodes of a ledger with no open batch, one after another. The first fault ends it.
pub fn run_files<W: Wait + Threads + Sync, D: Disk + Send, V: Verifier + Sync, G: Gate + Sync>(
    rt: &W,
    alloc: Global,
    ledger: Ledger<D>,
    files: &[List<FullTx>],
    verifier: &V,
    options: RunOptions,
    gate: &G,
) -> FilesRun<D>
    requires idle { AreIdle ledger.header.shape (ledger_journals ledger) }
    requires short { All (λ txs. All IsShort txs) files.now }
    requires checked { IsChecked ledger }
    // Whatever came, what that leaves of the nodes; without a fault the files' waves stand behind the journals; and a fault has its cause.
    ensures { Stretch (files_deed (V.verdict_of verifier.now) files.now)
        (ledger_sight D.Disk ledger) (ledger_sight D.Disk result.ledger) result.came }
{
    let Ok(mut waves) = Vec::with_capacity(alloc, files.len()) else {
        return FilesRun {
            ledger,
            came: Err(no_memory()),
        };
    };
    let mut ledger = ledger;
    'files: for txs in files {
        let FileRun {
            ledger: behind,
            came,
        } = run_file(rt, alloc, ledger, txs.as_slice(), verifier, options, gate);
        ledger = behind;
        let wave = match came {
            Ok(wave) => wave,
            Err(fault) => {
                return FilesRun {
                    ledger,
                    came: Err(fault),
                };
            }
        };
        match waves.push(wave) {
            Ok(()) => {}
            Err(_) => {
                return FilesRun {
                    ledger,
                    came: Err(no_memory()),
                };
            }
        }
    }
    FilesRun {
        ledger,
        came: Ok(waves),
    }
}
