// From lists of locks and of nodes to the record of a wave: what each lock's closing says of the node at its place. The laws have no body that runs.
ghost use Rattle.lane_waves.specs.Laws.{HeldLaw, NodesRanLaw, NodesStillLaw};

use node_lock::Sighted;

/// Each node whose lock was made and closed has run, at its place.
pub fn nodes_ran_law<N: Sighted>()
    ensures { NodesRanLaw N.sight N.goes }
{}

/// Each node that was asked nothing is still, at its place.
pub fn nodes_still_law<N: Sighted>()
    ensures { NodesStillLaw N.sight N.goes }
{}

/// What stays true of each node is true of all behind the closing, where it was before the locking.
pub fn held_law<N: Sighted>()
    ensures { HeldLaw N.sight N.goes }
{}
