// The open batches of all lanes are found, and their memory is taken.
ghost use Rattle.std.specs.Prelude.{◌≡◌, length, reverse, IfOk, IfSome, All};
ghost use Rattle.std.specs.List.{AllZip};
ghost use Rattle.cbdc_model.specs.Grammar.{HasSize};
ghost use Rattle.ledger_runs.specs.Planning.{IsPlanOf};
ghost use Rattle.ledger_runs.specs.Turns.{FindsOpen};

use crate::Turns;
use cbdc_types::{LaneId, OpenLane, Shape};
use recovery::{Plan, plan};
use std::alloc::{AllocError, Global};
use std::slice::from_ref;

/// The open batch of each lane, in order: none where it is idle; or memory ran out.
pub(crate) fn open_lanes<L: Turns>(
    alloc: Global,
    ledger: &L,
) -> Result<Vec<Option<OpenLane>>, AllocError>
    ensures { IfOk result (λ found. FindsOpen L.Turns ledger.now found.items) }
{
    let count = ledger.shape().lane_count();
    let mut found = Vec::with_capacity(alloc, count as usize)?;
    for lane in 0..count {
        found.push_reserved(ledger.open_lane(LaneId(lane))?);
    }
    Ok(found)
}

// A plan for a lane, if it has an open batch.
fn plan_lane<'a>(
    alloc: Global,
    shape: &Shape,
    found: &'a Option<OpenLane>,
) -> Result<Option<Plan<'a>>, AllocError>
    requires { IfSome found.now (λ o. HasSize shape.now o.txs) }
    ensures { IfOk result (IsPlanOf shape.now found.now) }
{
    match found {
        Some(unfinished) => Ok(Some(plan(alloc, shape, from_ref(unfinished))?)),
        None => Ok(None),
    }
}

/// A plan for each lane that has an open batch, the last lane first, or memory ran out.
pub(crate) fn plan_lanes<'a>(
    alloc: Global,
    shape: &Shape,
    found: &'a [Option<OpenLane>],
) -> Result<Vec<Option<Plan<'a>>>, AllocError>
    requires { All (λ f. IfSome f (λ o. HasSize shape.now o.txs)) found.now }
    ensures { IfOk result (λ plans. AllZip (IsPlanOf shape.now) found.now (reverse plans.items)) }
{
    let mut plans = Vec::with_capacity(alloc, found.len())?;
    for one in found {
        plans.push_reserved(plan_lane(alloc, shape, one)?);
    }
    plans.reverse();
    Ok(plans)
}
