// The lanes of a wave: made ready for it, and with their results.
ghost use Rattle.std.specs.Prelude.{◌≡◌, ◌≤◌, ◌+◌, ◌++◌, All, Some, map, min, length, OnOk, IfOk, vec_len, vec_capacity};
ghost use Rattle.ledger_runs.specs.Telling.{kept_by, decided_in};
ghost use Rattle.thread_laws.specs.Telling.{told_in};
ghost use Rattle.lane_waves.specs.Lanes.{IsLaneReady, HasStoppedForMemory, IsResultKept};

use cbdc_types::{BatchId, Outcome};
use lane_driver::{BatchReport, LaneFault, LaneReport, Source, no_memory};
use ledger_runs::{Decided, Lane, Work};
use std::alloc::AllocError;

/// Makes the lanes ready for a wave: nothing is decided of their transactions, and there is room for an outcome of each.
pub(crate) fn make_ready<X: Source>(lanes: &mut Vec<Work<X>>) -> Result<(), AllocError>
    ensures same { map (λ x. x.txs) lanes.new.items ≡ map (λ x. x.txs) lanes.old.items }
    ensures ready { OnOk result (All IsLaneReady lanes.new.items) }
{
    for place in 0..lanes.len() {
        make_one_ready(&mut lanes[place])?;
    }
    Ok(())
}

fn make_one_ready<X: Source>(work: &mut Work<X>) -> Result<(), AllocError>
    ensures same { work.new.txs ≡ work.old.txs }
    ensures ready { OnOk result (IsLaneReady work.new) }
{
    work.lane.decided.clear();
    work.lane.batches = 0;
    work.lane.fault = None;
    work.lane.decided.reserve(work.source.most())
}

/// Stops all lanes because memory ran out.
pub(crate) fn stop_all<X: Source>(lanes: &mut Vec<Work<X>>)
    ensures same { map (λ x. x.txs) lanes.new.items ≡ map (λ x. x.txs) lanes.old.items }
    ensures stopped { All HasStoppedForMemory lanes.new.items }
{
    for place in 0..lanes.len() {
        stop(&mut lanes[place]);
    }
}

fn stop<X: Source>(work: &mut Work<X>)
    ensures same { work.new.txs ≡ work.old.txs }
    ensures stopped { HasStoppedForMemory work.new }
{
    work.lane.fault = Some(no_memory());
}

/// The lane with the result of its run.
pub(crate) fn kept<X: Source>(mut work: Work<X>, came: Result<LaneReport, LaneFault>) -> Work<X>
    requires ready { IsLaneReady work }
    requires room { IfOk came (λ r. length (told_in r.batches) ≤ length work.txs) }
    ensures { IsResultKept work came result }
{
    match came {
        Ok(report) => keep_all(&mut work.lane, report.batches.as_slice()),
        Err(fault) => work.lane.fault = Some(fault),
    }
    work
}

// Keeps the result of batches.
fn keep_all(lane: &mut Lane, reports: &[BatchReport])
    requires room { vec_len lane.old.decided + length (told_in reports.now) ≤ vec_capacity lane.old.decided }
    ensures same { lane.new.fault ≡ lane.old.fault }
    ensures kept { kept_by lane.new.decided.items ≡ kept_by lane.old.decided.items ++ told_in reports.now }
    ensures count { lane.old.batches ≡ 0 → lane.new.batches ≡ min (length reports.now) 18446744073709551615 }
{
    'reports: for report in reports {
        keep(lane, report);
    }
}

// Keeps the result of a batch.
fn keep(lane: &mut Lane, report: &BatchReport)
    requires room { vec_len lane.old.decided + length report.now.outcomes ≤ vec_capacity lane.old.decided }
    ensures same { lane.new.fault ≡ lane.old.fault }
    ensures room { (vec_capacity lane.new.decided ≡ vec_capacity lane.old.decided)
        × (vec_len lane.new.decided ≡ vec_len lane.old.decided + length report.now.outcomes) }
    ensures kept { kept_by lane.new.decided.items
        ≡ kept_by lane.old.decided.items ++ decided_in report.now.batch report.now.outcomes }
    ensures count { lane.new.batches ≡ min (lane.old.batches + 1) 18446744073709551615 }
{
    lane.batches = lane.batches.saturating_add(1);
    keep_outcomes(&mut lane.decided, &report.batch, report.outcomes.as_slice());
}

// Keeps what was decided of a batch.
fn keep_outcomes(decided: &mut Vec<Decided>, batch: &BatchId, outcomes: &[Outcome])
    requires room { vec_len decided.old + length outcomes.now ≤ vec_capacity decided.old }
    ensures room { (vec_capacity decided.new ≡ vec_capacity decided.old)
        × (vec_len decided.new ≡ vec_len decided.old + length outcomes.now) }
    ensures kept { kept_by decided.new.items
        ≡ kept_by decided.old.items ++ decided_in batch.now outcomes.now }
{
    'outcomes: for outcome in outcomes {
        decided.push_reserved(Decided {
            batch: *batch,
            outcome: *outcome,
        });
    }
}
