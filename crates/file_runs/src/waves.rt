// One client file: its lanes check its submissions, and the sound ones are a wave.
ghost use Rattle.std.specs.Prelude.{◌≡◌, ◌≤◌, All, IfOk, [], length, map};
ghost use Rattle.std.specs.Vec.{vec_capacity};
ghost use Rattle.cbdc_model.specs.World.{AreIdle};
ghost use Rattle.input_files.specs.Limits.{IsShort};
ghost use Rattle.file_runs.specs.Ledgers.{ledger_journals, IsChecked};
ghost use Rattle.file_runs.specs.FileRuns.{RanFile};
ghost use Rattle.ledger_runs.specs.Lanes.{came_of};
ghost use Rattle.submissions.specs.Checks.{AreChecked};
ghost use Rattle.lane_sources.specs.Sources.{count_of_lanes};
ghost use Rattle.file_runs.specs.Runs.{AreLanesOf};

use crate::Ledger;
use crate::fed::{Checkers, Waved, ahead_of, checkers_of, run_fed};
use cbdc_types::{FullTx, Shape};
use lane_driver::{LaneFault, no_memory};
use lane_sources::{Deals, Feeder, FileOf, LaneSource, checks_of};
use lane_waves::Watch;
use ledger_runs::{Lane, Work, first_fault};
use outside::{Disk, Gate};
use requests::RunOptions;
use sentinel::Verifier;
use std::alloc::{AllocError, Global};
use std::marker::Brand;
use std::sync::Wait;
use std::thread::Threads;
use submissions::Checked;

/// A client file that was run: each submission in order, the lanes with what was decided, and what an auditor saw beside them.
#[derive(Drop)]
pub struct Wave {
    pub checked: Vec<Checked>,
    pub lanes: Vec<Lane>,
    pub looks: Watch,
}

/// A ledger behind a client file, and the result.
#[derive(Drop)]
pub struct FileRun<D: Disk> {
    pub ledger: Ledger<D>,
    pub came: Result<Wave, LaneFault>,
}

// The memory of what is put together behind a wave.
#[derive(Drop)]
struct WaveRoom<'a, W: Wait, V: Verifier, F: Deals> {
    sources: Vec<LaneSource<'a, W, V, F>>,
    lanes: Vec<Lane>,
    checked: Vec<Checked>,
}

fn wave_room<'a, W: Wait, V: Verifier, F: Deals>(
    alloc: Global,
    file: &FileOf<'a, V, F>,
) -> Result<WaveRoom<'a, W, V, F>, AllocError>
    ensures sources { IfOk result (λ r. (r.sources.items ≡ [])
        × (count_of_lanes F.shape ≤ vec_capacity r.sources)) }
    ensures lanes { IfOk result (λ r. (r.lanes.items ≡ [])
        × (count_of_lanes F.shape ≤ vec_capacity r.lanes)) }
    ensures checked { IfOk result (λ r. (r.checked.items ≡ []) × (length F.file ≤ vec_capacity r.checked)) }
{
    Ok(WaveRoom {
        sources: Vec::with_capacity(alloc, file.lanes())?,
        lanes: Vec::with_capacity(alloc, file.lanes())?,
        checked: Vec::with_capacity(alloc, file.txs().len())?,
    })
}

// The lanes of a wave, none of which has run anything. Their feeders are put to the others.
fn works_of<'a, W: Wait + Threads + Sync, V: Verifier + Sync, F: Deals + Send + Sync>(
    rt: &'a W,
    alloc: Global,
    shape: &Shape,
    file: &'a FileOf<'a, V, F>,
    repeats: u32,
    checkers: Checkers,
    feeders: &mut Vec<Feeder<F>>,
) -> Result<Vec<Work<LaneSource<'a, W, V, F>>>, AllocError>
    ensures { IfOk result (λ v. AreLanesOf F.shape F.verdicts F.file v.items) }
{
    let count = file.lanes();
    let mut works = Vec::with_capacity(alloc, count)?;
    'lanes: for lane in 0..count {
        let ahead = ahead_of(rt, alloc, shape, file, lane, checkers, feeders);
        let source = LaneSource::new(rt, alloc, file, lane, ahead)?;
        works.push(Work::new(alloc, source, repeats))?;
    }
    Ok(works)
}

// The result of a wave, with what was said of the submissions.
fn wave_of<'a, W: Wait, V: Verifier, F: Deals>(
    file: &FileOf<'a, V, F>,
    works: Vec<Work<LaneSource<'a, W, V, F>>>,
    room: WaveRoom<'a, W, V, F>,
    looks: Watch,
) -> Wave
    requires many { length works.items ≡ count_of_lanes F.shape }
    requires sources { (room.sources.items ≡ []) × (count_of_lanes F.shape ≤ vec_capacity room.sources) }
    requires lanes { (room.lanes.items ≡ []) × (count_of_lanes F.shape ≤ vec_capacity room.lanes) }
    requires checked { (room.checked.items ≡ []) × (length F.file ≤ vec_capacity room.checked) }
    ensures lanes { result.lanes.items ≡ map came_of works.entry.items }
    ensures checked { AreChecked F.shape F.verdicts F.file result.checked.items }
    ensures looks { result.looks ≡ looks }
{
    let WaveRoom {
        mut sources,
        mut lanes,
        mut checked,
    } = room;
    'works: for work in works {
        let Work {
            source,
            repeats: _,
            lane,
        } = work;
        sources.push_reserved(source);
        lanes.push_reserved(lane);
    }
    checks_of(file, sources.as_mut_slice(), &mut checked);
    Wave {
        checked,
        lanes,
        looks,
    }
}

// The same of the file that `F` picks.
fn run_dealt<
    'a,
    W: Wait + Threads + Sync,
    D: Disk + Send,
    V: Verifier + Sync,
    F: Deals + Send + Sync,
    G: Gate + Sync,
>(
    rt: &'a W,
    alloc: Global,
    file: &'a FileOf<'a, V, F>,
    ledger: Ledger<D>,
    repeats: u32,
    gate: &G,
) -> FileRun<D>
    requires shape { F.shape ≡ ledger.header.shape }
    requires idle { AreIdle ledger.header.shape (ledger_journals ledger) }
    requires short { All IsShort F.file }
    requires checked { IsChecked ledger }
    ensures { RanFile D.Disk F.verdicts F.file ledger result.ledger result.came }
{
    let checkers = checkers_of(rt, file);
    let mut feeders = Vec::new(alloc);
    let Ok(works) = works_of(
        rt,
        alloc,
        ledger.shape(),
        file,
        repeats,
        checkers,
        &mut feeders,
    ) else {
        return FileRun {
            ledger,
            came: Err(no_memory()),
        };
    };
    let Ok(room) = wave_room(alloc, file) else {
        return FileRun {
            ledger,
            came: Err(no_memory()),
        };
    };
    let Waved {
        ledger,
        works,
        looks,
    } = run_fed::<W, D, V, F, Brand, G>(rt, alloc, file, ledger, works, feeders, gate);
    match first_fault(&works) {
        Some(fault) => FileRun {
            ledger,
            came: Err(fault),
        },
        None => FileRun {
            ledger,
            came: Ok(wave_of(file, works, room, looks)),
        },
    }
}

// Picks the file.
fn run_picked<
    'a,
    W: Wait + Threads + Sync,
    D: Disk + Send,
    V: Verifier + Sync,
    F: Deals + Send + Sync,
    G: Gate + Sync,
>(
    rt: &'a W,
    alloc: Global,
    ledger: Ledger<D>,
    txs: &'a [FullTx],
    verifier: &'a V,
    options: RunOptions,
    gate: &G,
) -> FileRun<D>
    requires shape { F.shape ≡ ledger.header.shape }
    requires file { F.file ≡ txs.now }
    requires verdicts { F.verdicts ≡ V.verdict_of verifier.now }
    requires idle { AreIdle ledger.header.shape (ledger_journals ledger) }
    requires short { All IsShort txs.now }
    requires checked { IsChecked ledger }
    ensures { RanFile D.Disk F.verdicts F.file ledger result.ledger result.came }
{
    let file: FileOf<'_, V, F> = FileOf::new(txs, verifier, ledger.shape().lane_count());
    run_dealt(rt, alloc, &file, ledger, options.repeats, gate)
}

/// Runs the submissions of a client file over the nodes of a ledger with no open batch. Each lane checks what is for it as it comes to
/// it. The fault of the least lane that meets one ends it, once the others have run what they got.
pub fn run_file<W: Wait + Threads + Sync, D: Disk + Send, V: Verifier + Sync, G: Gate + Sync>(
    rt: &W,
    alloc: Global,
    ledger: Ledger<D>,
    txs: &[FullTx],
    verifier: &V,
    options: RunOptions,
    gate: &G,
) -> FileRun<D>
    requires idle { AreIdle ledger.header.shape (ledger_journals ledger) }
    requires short { All IsShort txs.now }
    requires checked { IsChecked ledger }
    ensures { RanFile D.Disk (V.verdict_of verifier.now) txs.now ledger result.ledger result.came }
{
    run_picked::<W, D, V, Brand, G>(rt, alloc, ledger, txs, verifier, options, gate)
}
