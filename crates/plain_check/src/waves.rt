// Whether a run takes its files in waves.
ghost use Rattle.std.specs.Prelude.{◌↔◌, Bool, IsTrue, IfOk, OnOk};
ghost use Rattle.cbdc_model.specs.Coins.{FullTx as ModelTx};
ghost use Rattle.cbdc_model.specs.Waves.{Waves};
ghost use Rattle.plain_check.specs.Journals.{journals_in};
ghost use Rattle.submissions.specs.Checks.{TellsSound};
ghost use Rattle.plain_check.specs.Stages.{IsFileStage, AddsStages};

use crate::choices::choices_of;
use crate::copying::put;
use crate::stages::{Stage, are_stages};
use cbdc_types::{FullTx, List, Record, Shape};
use sentinel::Verifier;
use std::alloc::{AllocError, Global};
use submissions::check_all;

// The stage of a file: each lane gets the compact forms of its sound submissions.
fn stage_of<V: Verifier>(
    alloc: Global,
    shape: &Shape,
    verifier: &V,
    file: &[FullTx],
) -> Result<Stage, AllocError>
    ensures { IfOk result (λ s. (sound : ModelTx → Bool) → TellsSound (V.verdict_of verifier.now) sound
        → IsFileStage shape.now sound file.now s) }
{
    let submitted = check_all(alloc, file, shape, verifier)?;
    Ok(Stage::File(submitted.lanes))
}

// Puts the stages of files behind those so far.
#[tactic(auto, using(crate::proofs::Staging::no_stages))]
fn add_stages<V: Verifier>(
    alloc: Global,
    shape: &Shape,
    verifier: &V,
    files: &[List<FullTx>],
    out: &mut Vec<Stage>,
) -> Result<(), AllocError>
    ensures { OnOk result
        (AddsStages shape.now (V.verdict_of verifier.now) files.now out.old.items out.new.items) }
{
    let Some((file, rest)) = files.split_first() else {
        return Ok(());
    };
    put(out, stage_of(alloc, shape, verifier, file.as_slice())?)?;
    add_stages(alloc, shape, verifier, rest, out)
}

/// Whether the journals at exit are those at entry, resumed, and then these files' waves, one file after another.
///
/// By each test that tells the sound submissions under these verdicts: true exactly where the journals at exit are those at entry, resumed, and
/// then the files' waves (memory alone may run out).
///
/// Tested in `journal_rows` (`plain.rows`, `shards.rows`).
#[tactic(auto, using(crate::proofs::Staging::waves_by))]
pub fn are_waves<V: Verifier>(
    alloc: Global,
    shape: &Shape,
    verifier: &V,
    files: &[List<FullTx>],
    entry: &[List<Record>],
    exit: &[List<Record>],
) -> Result<bool, AllocError>
    ensures { IfOk result (λ yes. (sound : ModelTx → Bool) → TellsSound (V.verdict_of verifier.now) sound
        → IsTrue yes ↔ Waves shape.now sound files.now (journals_in entry.now) (journals_in exit.now)) }
{
    let mut stages = Vec::new(alloc);
    put(&mut stages, Stage::Resume)?;
    add_stages(alloc, shape, verifier, files, &mut stages)?;
    let worlds = choices_of(alloc, exit)?;
    are_stages(
        alloc,
        shape,
        stages.as_slice(),
        worlds.as_slice(),
        entry,
        exit,
    )
}
