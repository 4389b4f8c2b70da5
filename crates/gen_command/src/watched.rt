// The cut of what an auditor saw beside the lanes of a workload's first file.
ghost use Rattle.std.specs.Prelude.{◌≡◌, ◌<◌, ◌^◌, ℕ, List, map, length, IfOk, IfErr, IfSome};
ghost use Rattle.cbdc_types.specs.Limits.{IsWithinLimits};
ghost use Rattle.cbdc_model.specs.Records.{Record as ModelRecord};
ghost use Rattle.audit.specs.Rows.{read, journal_in};
ghost use Rattle.file_runs.specs.Looking.{AreLooks};
ghost use Rattle.gen_command.specs.Watched.{lists_in, IsSeenFirst, IfSeenFirst, IsCutVerdict, IsCutTold, WhyNoCut};

use audit::{PartVerdict, audit_part};
use cbdc_types::{Answer, FullTx, Output, Record, Shape};
use cut_audit::{Cut, cut};
use file_runs::Wave;
use lane_waves::Watch;
use std::alloc::{AllocError, Global};
use std::thread::Threads;

// Lists, lent.
fn lent<'a>(alloc: Global, lists: &'a [Vec<Record>]) -> Result<Vec<&'a [Record]>, AllocError>
    ensures { IfOk result (λ v. read v.items ≡ lists_in lists.entry.now) }
{
    let mut all = Vec::with_capacity(alloc, lists.len())?;
    'lists: for list in lists {
        all.push(list.as_slice())?;
    }
    Ok(all)
}

// What an audit finds of the cut of some lists.
fn verdict_on<W: Threads + Sync>(
    rt: &W,
    alloc: Global,
    shape: &Shape,
    lists: &[Vec<Record>],
    mint: &[Output],
    handed: &[FullTx],
) -> Result<PartVerdict, AllocError>
    requires some { 0 < length lists.now }
    requires few { length lists.now < 2 ^ 32 }
    requires full { (n : ℕ) → n < length lists.now → 0 < length (journal_in (lists_in lists.now) n) }
    ensures { IfOk result (IsCutVerdict shape.now mint.now handed.now (lists_in lists.now)) }
{
    let all = lent(alloc, lists)?;
    let Cut { stamp: _, history } = cut(alloc, &all)?;
    audit_part(rt, alloc, shape, &all, history.as_slice(), mint, handed)
}

// What was seen beside the first wave, where it is kept.
fn seen_first<'a>(waves: &'a [Wave]) -> Option<&'a [Vec<Record>]>
    ensures { IfSome result (λ lists. IsSeenFirst waves.entry.now lists.now) }
{
    let Some(wave) = waves.first() else {
        return None;
    };
    match &wave.looks {
        Watch::Saw(lists) => Some(lists.as_slice()),
        _ => None,
    }
}

/// The value of the cut of what an auditor saw beside the first wave, if it is asked for. Where memory ran out for the looks there is none.
pub(crate) fn value_seen<W: Threads + Sync>(
    rt: &W,
    alloc: Global,
    shape: &Shape,
    watch: bool,
    waves: &[Wave],
    mint: &[Output],
    handed: &[FullTx],
) -> Result<Option<u128>, Answer>
    requires limits { IsWithinLimits shape.now }
    requires looks { IfSeenFirst waves.now
        (λ lists. (X : ℕ → List ModelRecord) × AreLooks shape.now X lists) }
    ensures did { IfOk result (IsCutTold shape.now mint.now handed.now waves.now watch) }
    ensures why { IfErr result (WhyNoCut shape.now mint.now handed.now waves.now watch) }
{
    if !watch {
        return Ok(None);
    }
    let Some(lists) = seen_first(waves) else {
        return Err(Answer::Memory);
    };
    match verdict_on(rt, alloc, shape, lists, mint, handed) {
        Ok(PartVerdict::Sound(part)) => Ok(Some(part.value)),
        Ok(PartVerdict::Unsound { place, kind }) => Err(Answer::Unsound { place, kind }),
        Err(_) => Err(Answer::Memory),
    }
}
