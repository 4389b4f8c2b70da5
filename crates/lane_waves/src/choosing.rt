// Where the calls of a phase are worth threads of their own.
use cbdc_types::Shape;
use lane_driver::Source;
use ledger_runs::Work;
use phase_calls::Pace;

// How many transactions a batch may have at least where its calls are taken to be slow before one was measured.
const LARGE_BATCH: u32 = 1024;

// How many of some lanes have anything to run.
fn at_work<X: Source>(lanes: &[Work<X>]) -> u32 {
    let mut many = 0u32;
    'lanes: for lane in lanes {
        if lane.source.most() > 0 {
            many = many.saturating_add(1);
        }
    }
    many
}

/// How a lane of the wave makes the calls of a phase. As many lanes as there are shards keep the processors and the disks at work by themselves,
/// and threads for each phase would be in their way; so their calls are made in turn. Those of fewer lanes are made at once where batches are
/// large, else where calls turn out to be slow: a call in memory takes less time than to start a thread. What is recorded and what is told is the same.
pub(crate) fn pace_of<X: Source>(shape: &Shape, lanes: &[Work<X>]) -> Pace {
    if at_work(lanes) >= shape.shards() {
        Pace::InTurn
    } else if shape.batch() >= LARGE_BATCH {
        Pace::AtOnce
    } else {
        Pace::AtOnceWhereSlow
    }
}
