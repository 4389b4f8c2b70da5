// What a lane reports, and why it stopped.
ghost use Rattle.std.specs.Prelude.{◌≡◌, ◌/◌};
ghost use Rattle.lane_laws.specs.Faults.{IsNoRefusal};
ghost use Rattle.lane_driver.specs.Faults.{IsLaneFaultOf};

use cbdc_types::{BatchId, List, NodeFault, NodeId, Outcomes, Stamp};
use thiserror::Error;

/// A batch that is done, with the outcomes of its transactions.
#[derive(Clone, Debug, PartialEq, Eq, Drop)]
pub struct BatchReport {
    pub batch: BatchId,
    pub outcomes: Outcomes,
}

/// The batches that a lane has done, in order.
#[derive(Clone, Debug, PartialEq, Eq, Drop)]
pub struct LaneReport {
    pub batches: List<BatchReport>,
}

/// Why a lane stopped.
#[derive(Clone, Copy, Debug, PartialEq, Eq, Error)]
pub enum LaneFaultKind {
    #[error("the disk failed")]
    DiskFault,
    /// `used + need` bytes do not fit the node's disk.
    #[error("the disk is full: {used} bytes used, {need} needed, {capacity} in all")]
    Full { used: u64, need: u64, capacity: u64 },
    /// The next record's stamp would pass its bound.
    #[error("the clock is at its end: its next stamp would be {}", .stamp.0)]
    ClockEnd { stamp: Stamp },
    /// The node, or the driver itself, got no memory.
    #[error("out of memory")]
    Memory,
}

/// Where a lane stopped: the node, or 0 where the driver itself ran out of memory.
#[derive(Clone, Copy, Debug, PartialEq, Eq, Error)]
#[error("node {}: {fault}", .node.0)]
pub struct LaneFault {
    pub node: NodeId,
    pub fault: LaneFaultKind,
}

/// Where a batch stopped: the node, and what it answered; node 0 and Memory where the driver itself ran out of memory.
#[derive(Clone, Copy, Debug, PartialEq, Eq, Error)]
#[error("node {}: {fault}", .node.0)]
pub struct Stop {
    pub node: NodeId,
    pub fault: NodeFault,
}

/// The lane's fault where its batch stopped so. A broken node is one whose disk failed.
pub fn lane_fault(stop: Stop) -> LaneFault
    requires { IsNoRefusal stop.fault }
    ensures { IsLaneFaultOf result stop.node stop.fault }
{
    let Stop { node, fault } = stop;
    let fault = match fault {
        NodeFault::Broken { since: _ } => LaneFaultKind::DiskFault,
        NodeFault::Refused(_) => unreachable!(),
        NodeFault::ClockEnd { stamp } => LaneFaultKind::ClockEnd { stamp },
        NodeFault::Full {
            used,
            need,
            capacity,
        } => LaneFaultKind::Full {
            used,
            need,
            capacity,
        },
        NodeFault::DiskFault => LaneFaultKind::DiskFault,
        NodeFault::Memory => LaneFaultKind::Memory,
    };
    LaneFault { node, fault }
}

/// The fault of a driver that got no memory.
pub fn no_memory() -> LaneFault
    ensures { result ≡ record { node = 0; fault = LaneFaultKind.Memory } }
{
    LaneFault {
        node: NodeId(0),
        fault: LaneFaultKind::Memory,
    }
}
