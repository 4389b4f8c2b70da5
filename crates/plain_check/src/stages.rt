// A run as stages, one after another: the resuming of open batches, and then the batches of each file.
ghost use Rattle.std.specs.Prelude.{◌≡◌, ◌↔◌, ◌*◌, ◌<◌, ◌≤◌, ℕ, IsTrue, IfOk};
ghost use Rattle.cbdc_model.specs.Ranges.{home_of};
ghost use Rattle.cbdc_model.specs.Waves.{IsResumed, IsFileRun};
ghost use Rattle.plain_check.specs.Journals.{journals_in};
ghost use Rattle.plain_check.specs.Adding.{PreparesInPieces};
ghost use Rattle.plain_check.specs.Choices.{choices};
ghost use Rattle.plain_check.specs.Stages.{sent_in, StageRuns, RunsBy};

use crate::adding::{adds, are_idle};
use crate::choices::are_same;
use crate::journal_at;
use crate::prepares::is_prepared;
use cbdc_types::{CompactTx, LaneId, List, Record, Shape};
use same_records::home_of;
use std::alloc::{AllocError, Global};

/// A stage of a run.
#[derive(Drop)]
pub enum Stage {
    /// It brings the open batches to their end.
    Resume,
    /// It takes the sound submissions of a file, by lane.
    File(Vec<Vec<CompactTx>>),
}

/// Whether the open batches are brought to their end between these journals, and nothing else is done.
pub fn is_resumed(shape: &Shape, old: &[List<Record>], new: &[List<Record>]) -> bool
    ensures { IsTrue result ↔ IsResumed shape.now (journals_in old.now) (journals_in new.now) }
{
    adds(true, shape, old, new) && are_idle(shape, new)
}

// What a lane gets, none past the last list.
fn sent_to<'a>(lists: &'a [Vec<CompactTx>], lane: u32) -> &'a [CompactTx]
    ensures { result.now ≡ sent_in lists.now lane }
{
    match lists.get(lane as usize) {
        Some(own) => own.as_slice(),
        None => &[],
    }
}

// Whether each lane below n has prepared what it got.
fn are_prepared_below(
    alloc: Global,
    shape: &Shape,
    lists: &[Vec<CompactTx>],
    old: &[List<Record>],
    new: &[List<Record>],
    n: u32,
) -> Result<bool, AllocError>
    ensures { IfOk result (λ yes. IsTrue yes
        ↔ ((lane : ℕ) → lane < n → PreparesInPieces shape.now lane (sent_in lists.now lane)
        (journals_in old.now (home_of shape.now lane)) (journals_in new.now (home_of shape.now lane)))) }
{
    if n == 0 {
        return Ok(true);
    }
    let lane = LaneId(n - 1);
    let home = home_of(shape, lane).0;
    let before = journal_at(old, home);
    let after = journal_at(new, home);
    if !is_prepared(alloc, shape, lane, sent_to(lists, n - 1), before, after)? {
        return Ok(false);
    }
    are_prepared_below(alloc, shape, lists, old, new, n - 1)
}

/// Whether what each lane got is prepared in order between these journals, in pieces of a batch's size, all of it is brought to its
/// end, and nothing else is done.
pub fn is_file_run(
    alloc: Global,
    shape: &Shape,
    lists: &[Vec<CompactTx>],
    old: &[List<Record>],
    new: &[List<Record>],
) -> Result<bool, AllocError>
    ensures { IfOk result (λ yes. IsTrue yes
        ↔ IsFileRun shape.now (sent_in lists.now) (journals_in old.now) (journals_in new.now)) }
{
    if !adds(false, shape, old, new) || !are_idle(shape, new) {
        return Ok(false);
    }
    are_prepared_below(alloc, shape, lists, old, new, shape.lane_count())
}

// Whether a stage leads from these journals to those.
fn stage_runs(
    alloc: Global,
    shape: &Shape,
    stage: &Stage,
    old: &[List<Record>],
    new: &[List<Record>],
) -> Result<bool, AllocError>
    ensures { IfOk result (λ yes. IsTrue yes
        ↔ StageRuns shape.now stage.now (journals_in old.now) (journals_in new.now)) }
{
    match stage {
        Stage::Resume => Ok(is_resumed(shape, old, new)),
        Stage::File(lists) => is_file_run(alloc, shape, lists.as_slice(), old, new),
    }
}

/// Whether stages in turn lead from these journals to those. The choices are those for the last journals.
#[tactic(auto, using(crate::proofs::Staging::runs_none, crate::proofs::Staging::runs_found, crate::proofs::Staging::runs_not))]
pub fn are_stages(
    alloc: Global,
    shape: &Shape,
    stages: &[Stage],
    worlds: &[List<List<Record>>],
    old: &[List<Record>],
    new: &[List<Record>],
) -> Result<bool, AllocError>
    requires { worlds.now ≡ choices new.now }
    ensures { IfOk result (λ yes. IsTrue yes
        ↔ RunsBy shape.now stages.now (journals_in old.now) (journals_in new.now)) }
{
    let Some((stage, rest)) = stages.split_first() else {
        return Ok(are_same(old, new));
    };
    for world in worlds {
        let mid = world.as_slice();
        if stage_runs(alloc, shape, stage, old, mid)?
            && are_stages(alloc, shape, rest, worlds, mid, new)?
        {
            return Ok(true);
        }
    }
    Ok(false)
}
