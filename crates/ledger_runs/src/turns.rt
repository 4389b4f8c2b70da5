// What the resuming of lanes asks of the nodes of a ledger.
ghost use Rattle.std.specs.Prelude.{◌≡◌, ℕ, List, Option, Some, IfOk, IfErr, OnOk, [], ◌∷◌};
ghost use Rattle.cbdc_types.specs.declared.batch.OpenLane.{OpenLane as OpenLaneOf};
ghost use Rattle.cbdc_model.specs.Records.{Shape as ShapeOf, Record};
ghost use Rattle.cbdc_model.specs.Slots.{Idle};
ghost use Rattle.lane_driver.specs.declared.fault.LaneFaultKind.TheVariants.{Memory};
ghost use Rattle.ledger_runs.specs.Keeping.{KeepsLedger};
ghost use Rattle.ledger_runs.specs.Turning.{lane_phase, IsLaneOf, KeepsLanes, OfKept, StaysKept, TookUp};
ghost use Rattle.ledger_runs.specs.Flying.{FliesOn, Launches};
ghost use Rattle.ledger_runs.specs.Telling.{IsLanesOpenBatch};
ghost use Rattle.ledger_runs.specs.Planning.{IsFound, KeepsOpens};
ghost use Rattle.ledger_runs.specs.Pieces.{HasPreparedPieces};
ghost use Rattle.ledger_runs.specs.Faults.{GrowBy, IsOpenCause, HaveFailed, MayHoldBytes, Nothing};

use cbdc_types::{LaneId, OpenLane, Shape};
use lane_driver::LaneFault;
use outside::Gate;
use recovery::{Plan, ResumedBatch};
use std::alloc::AllocError;

/// The nodes of a ledger, at which its lanes take up what was open.
pub trait Turns {
    /// The shape of the ledger.
    ghost shape: { Self → ShapeOf };

    /// The journal of each node, the newest record first.
    ghost journals: { Self → ℕ → List Record };

    /// The record in flight at each node, if there is one: a failed call may have left it on the node's disk or not.
    ghost flights: { Self → ℕ → Option Record };

    /// How often the disk of each node has failed.
    ghost faults: { Self → ℕ → ℕ };

    /// How often it had when the node was opened.
    ghost opened: { Self → ℕ → ℕ };

    /// How many bytes the disk of each node may hold.
    ghost capacity: { Self → ℕ → ℕ };

    /// Each record of the nodes' journals follows those before it, and is caused.
    ghost checked: { Self → Type 0 };

    /// No node has a record in flight: one that a failed call may have left on its disk or not.
    ghost quiet: { Self → Type 0 };

    /// The open batch of each lane that is not idle, as its coordinator's journal has it.
    ghost opens: { Self → ℕ → Option OpenLaneOf };

    /// Memory was wanting as the open batch of this lane was taken up. Nothing counts such refusals, so nodes may say it of any
    /// lane; what runs over them learns it only from a call that says it.
    ghost wanting: { Self → ℕ → Type 0 };

    /// What stays true of the nodes, whatever is asked of them.
    ghost holds: { Self → Type 0 };

    /// The shape of the ledger.
    fn shape(&self) -> &Shape
        ensures { result.now ≡ shape self.now };

    /// A copy of a lane's open batch, if it has one, or memory ran out.
    fn open_lane(&self, lane: LaneId) -> Result<Option<OpenLane>, AllocError>
        requires lane { IsLaneOf (shape self.now) lane }
        ensures found { IfOk result (IsFound (shape self.now) (journals self.now) (opens self.now) lane) };

    /// Brings the open batch of a lane to its end, with the memory that was taken for it: it answers out of memory only where a
    /// shard did, at a Lock.
    fn take_up<G: Gate>(
        &mut self,
        lane: LaneId,
        unfinished: &OpenLane,
        plan: Plan<'_>,
        gate: &G,
    ) -> Result<ResumedBatch, LaneFault>
        requires lane { IsLaneOf (shape self.old) lane }
        requires told { opens self.old lane ≡ Some unfinished.now }
        requires plan { plan ≡ record { shape = shape self.old; lanes = unfinished.now ∷ [] } }
        requires checked { checked self.old }
        ensures keeps_ledger { KeepsLedger shape opened faults capacity holds self.old self.new }
        ensures idle { OnOk result (lane_phase (shape self.old) (journals self.new) lane ≡ Idle) }
        ensures others { KeepsLanes (shape self.old) lane (journals self.old) (journals self.new) }
        ensures opens_same { KeepsOpens (shape self.old) lane (opens self.old) (opens self.new) }
        ensures keeps { OfKept (shape self.old)
            (journals self.old) (StaysKept (shape self.old) (journals self.old) (journals self.new)) }
        ensures took { IfOk result (λ batch. OfKept (shape self.old) (journals self.old)
            (λ _ _. TookUp (shape self.old) lane (journals self.old) (journals self.new) (Some batch))) }
        ensures opened { IfOk result
            (λ batch. IsLanesOpenBatch (shape self.old) lane (journals self.old) (Some batch)) }
        ensures quiet { OnOk result (quiet self.old → quiet self.new) }
        ensures flies { OfKept (shape self.old) (journals self.old) (FliesOn
            (shape self.old) (journals self.old) (journals self.new) (flights self.old) (flights self.new)) }
        ensures launches { Launches (shape self.old)
            (λ _. Nothing) (journals self.old) (journals self.new) (flights self.old) (flights self.new) }
        ensures checked { checked self.new }
        ensures grows { GrowBy lane (journals self.old) (journals self.new) }
        ensures unprepared { HasPreparedPieces
            (shape self.old) lane [] (journals self.old) (journals self.new) }

        // Its fault has its cause. Where memory was wanting the lane may wait where it was: its batch is prepared still.
        ensures fault { IfErr result (IsOpenCause (shape self.old) lane (journals self.old) (journals
            self.new) (HaveFailed (opened self.new) (faults self.new)) (MayHoldBytes (capacity self.new))) }
        ensures wanting { IfErr result (λ e. e.fault ≡ Memory → wanting self.new lane) }
        ensures wanting_same { (n : ℕ) → wanting self.old n → wanting self.new n };
}
