// Batches that an earlier run left open.
ghost use Rattle.std.specs.Prelude.{◌≡◌, ◌⊎◌, ◌≤◌, ◌<◌, ◌+◌, ℕ, IfOk, IfErr, OnOk};
ghost use Rattle.std.specs.Vec.{vec_len, vec_capacity};
ghost use Rattle.cbdc_model.specs.Lanes.{IsEnd};
ghost use Rattle.lane_driver.specs.declared.fault.LaneFaultKind.TheVariants.{Memory};
ghost use Rattle.cbdc_model.specs.World.{AreIdle};
ghost use Rattle.cbdc_model.specs.Slots.{Idle};
ghost use Rattle.ledger_runs.specs.Keeping.{KeepsLedger};
ghost use Rattle.ledger_runs.specs.Turning.{lane_phase, IsLaneOf, KeepsLanes};
ghost use Rattle.ledger_runs.specs.Planning.{IsFound, IsPlanOf, KeepsOpens};
ghost use Rattle.ledger_runs.specs.Least.{IsUnbegunForMemory};
ghost use Rattle.ledger_runs.specs.Telling.{SamePrepared};
ghost use Rattle.ledger_runs.specs.Faults.{GrowBy, TakesInOrder};
ghost use Rattle.ledger_runs.specs.Turns.{TurnsStayKept, TurnsFlyOn, TurnsLaunchNone, TurnPreparesNone, TookUpIn, TakesUpNamedIn, IsTurnCaused, AreTurnsCaused, IsTurnsLeast, TurnsRest, TurnsResume, TurnsTell};

use crate::Turns;
use crate::openings::{open_lanes, plan_lanes};
use cbdc_types::{LaneId, OpenLane};
use lane_driver::{LaneFault, no_memory};
use outside::Gate;
use recovery::{Plan, ResumedBatch};
use std::alloc::Global;

// Brings the open batch of a lane to its end, if it has one, and keeps its result.
fn resume_next<L: Turns, G: Gate>(
    ledger: &mut L,
    lane: LaneId,
    found: &Option<OpenLane>,
    planned: Option<Plan>,
    batches: &mut Vec<ResumedBatch>,
    gate: &G,
) -> Result<(), LaneFault>
    requires lane { IsLaneOf (L.shape ledger.old) lane }
    requires checked { L.checked ledger.old }
    requires found { IsFound
        (L.shape ledger.old) (L.journals ledger.old) (L.opens ledger.old) lane found.now }
    requires planned { IsPlanOf (L.shape ledger.old) found.now planned }
    requires room { vec_len batches.old < vec_capacity batches.old }
    ensures len { vec_len batches.new ≤ vec_len batches.old + 1 }
    ensures capacity { vec_capacity batches.new ≡ vec_capacity batches.old }
    ensures keeps_ledger { KeepsLedger L.shape L.opened L.faults L.capacity L.holds ledger.old ledger.new }
    ensures idle { OnOk result (lane_phase (L.shape ledger.old) (L.journals ledger.new) lane ≡ Idle) }
    ensures others { KeepsLanes (L.shape ledger.old) lane (L.journals ledger.old) (L.journals ledger.new) }
    ensures opens_same { KeepsOpens (L.shape ledger.old) lane (L.opens ledger.old) (L.opens ledger.new) }
    ensures keeps { TurnsStayKept L.Turns ledger.old ledger.new }
    ensures took { OnOk result
        (TookUpIn L.Turns lane ledger.old ledger.new batches.old.items batches.new.items) }
    ensures told { OnOk result
        (TakesUpNamedIn L.Turns lane ledger.old ledger.new batches.old.items batches.new.items) }
    ensures quiet { OnOk result (L.quiet ledger.old → L.quiet ledger.new) }
    ensures flies { TurnsFlyOn L.Turns ledger.old ledger.new }
    ensures launches { TurnsLaunchNone L.Turns ledger.old ledger.new }
    ensures checked { L.checked ledger.new }
    ensures grows { GrowBy lane (L.journals ledger.old) (L.journals ledger.new) }
    ensures unprepared { TurnPreparesNone L.Turns lane ledger.old ledger.new }
    ensures fault { IfErr result (IsTurnCaused L.Turns lane ledger.old ledger.new) }
    ensures wanting { IfErr result (λ e. e.fault ≡ Memory → L.wanting ledger.new lane) }
    ensures wanting_same { (n : ℕ) → L.wanting ledger.old n → L.wanting ledger.new n }
{
    let (Some(unfinished), Some(plan)) = (found, planned) else {
        return Ok(());
    };
    match ledger.take_up(lane, unfinished, plan, gate) {
        Ok(batch) => {
            batches.push_reserved(batch);
            Ok(())
        }
        Err(fault) => Err(fault),
    }
}

/// Brings the open batches of all lanes to their end, in rising order of the lanes, and takes all memory for that before the first
/// is taken up. A lane that meets a fault ends; the others go on. The answer is then the least lane's fault.
///
/// The open batch of each lane is brought to its end, lane by lane in rising order, each by records of that lane alone. Kept journals grow at their
/// ends and stay kept, also at a fault, and journals that are checked stay checked. At Ok no node has a record in flight where none had one, and what
/// is reported is each batch that was open, in order: which it is, the phase in which it was, and the outcomes that its coordinator has of it. None
/// was prepared newly.
///
/// A fault is that of the least lane that met one: all lesser lanes are idle. It has its cause: the disk of a node that the lane asks (a shard that
/// its batch concerns, once each lesser one has its record of the phase, or its coordinator, once all have) has failed since that was opened, or
/// there is no room, with the numbers, or no stamp at the first Lock that the batch lacks. Where memory ran out at a Lock, that lane's batch was
/// prepared and is so still.
///
/// Behind a lane's fault all others are taken up. Each lane is idle, or its batch lacks a Lock, or the disk of a node that it asks has failed, or its
/// batch is prepared still and the call that took it up reported that memory ran out. Where there is no memory for the batches that are open and for
/// what brings them to their end, nothing is done (idle, keeps, resumed, told, prepares, quiet, flies, keeps_ledger (`KeepsLedger`), checked, grows,
/// order, fault, least, rests).
///
/// Out of memory: before the first batch is taken up, with nothing written; after that only as `Plan::go`, and each lane is between batches, lacks
/// a Lock, asks a node whose disk failed, or is prepared still (`rests`).
pub fn resume_all<L: Turns, G: Gate>(
    alloc: Global,
    ledger: &mut L,
    gate: &G,
) -> Result<Vec<ResumedBatch>, LaneFault>
    requires { L.checked ledger.old }
    ensures keeps_ledger { KeepsLedger L.shape L.opened L.faults L.capacity L.holds ledger.old ledger.new }
    ensures idle { OnOk result (AreIdle (L.shape ledger.old) (L.journals ledger.new)) }
    ensures keeps { TurnsStayKept L.Turns ledger.old ledger.new }
    ensures resumed { OnOk result (TurnsResume L.Turns ledger.old ledger.new) }

    // The batches that were open, in order, each with the phase in which it stood and what is decided of it; and none was prepared.
    ensures told { IfOk result (λ rs. TurnsTell L.Turns ledger.old ledger.new rs.items) }
    ensures prepares { SamePrepared (L.shape ledger.old) (L.journals ledger.old) (L.journals ledger.new) }
    ensures quiet { OnOk result (L.quiet ledger.old → L.quiet ledger.new) }
    ensures flies { TurnsFlyOn L.Turns ledger.old ledger.new }
    ensures launches { TurnsLaunchNone L.Turns ledger.old ledger.new }
    ensures checked { L.checked ledger.new }
    ensures grows { (n : ℕ) → IsEnd (L.journals ledger.old n) (L.journals ledger.new n) }

    // With a fault or without, lane by lane in rising order.
    ensures order { TakesInOrder (L.shape ledger.old) (L.journals ledger.old) (L.journals ledger.new) }

    // Its fault has its cause.
    ensures fault { IfErr result (AreTurnsCaused L.Turns ledger.old ledger.new) }

    // It is that of the least lane that met one: all lesser lanes are idle. Only where memory ran out before the first was taken up
    // is nothing done.
    ensures least { IfErr result (IsTurnsLeast L.Turns ledger.old ledger.new) }

    // Behind the fault of a lane each lane was taken up: it is between batches, or its batch lacks a Lock, or the disk of a node that it
    // asks has failed; or memory was wanting for its Locks, and it is prepared still.
    ensures rests { IfErr result (λ e. IsUnbegunForMemory (L.journals ledger.old) (L.journals ledger.new) e
        ⊎ TurnsRest L.Turns ledger.old ledger.new) }
{
    let count = ledger.shape().lane_count();
    let Ok(mut batches) = Vec::with_capacity(alloc, count as usize) else {
        return Err(no_memory());
    };
    let Ok(opened) = open_lanes(alloc, ledger) else {
        return Err(no_memory());
    };
    let found = opened.as_slice();
    let Ok(mut plans) = plan_lanes(alloc, ledger.shape(), found) else {
        return Err(no_memory());
    };
    let mut first = None;
    'lanes: for lane in 0..count {
        let Some(planned) = plans.pop() else {
            unreachable!()
        };
        let came = resume_next(
            ledger,
            LaneId(lane),
            &found[lane as usize],
            planned,
            &mut batches,
            gate,
        );
        first = first.or(came.err());
    }
    match first {
        Some(fault) => Err(fault),
        None => Ok(batches),
    }
}
