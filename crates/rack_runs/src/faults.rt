// What the fault of a lane answers.
ghost use Rattle.std.specs.Prelude.{◌≡◌};
ghost use Rattle.rack_runs.specs.Kinds.{answer_to};

use cbdc_types::Answer;
use lane_driver::{LaneFault, LaneFaultKind};

/// What a lane's fault answers.
pub(crate) fn answer_of(fault: &LaneFault) -> Answer
    ensures { result ≡ answer_to fault.now }
{
    let node = fault.node;
    match fault.fault {
        LaneFaultKind::DiskFault => Answer::DiskFault(node),
        LaneFaultKind::Full {
            used,
            need,
            capacity,
        } => Answer::Full {
            node,
            used,
            need,
            capacity,
        },
        LaneFaultKind::ClockEnd { stamp } => Answer::ClockEnd { node, stamp },
        LaneFaultKind::Memory => Answer::Memory,
    }
}
