// What was resumed.
use cbdc_types::{BatchId, List, Outcomes, Phase};

/// A batch that was resumed: the phase that it stood in, and its outcomes.
#[derive(Clone, Debug, PartialEq, Eq, Drop)]
pub struct ResumedBatch {
    pub batch: BatchId,
    pub phase: Phase,
    pub outcomes: Outcomes,
}

/// The batches that were resumed, in rising order of their lanes.
#[derive(Clone, Debug, PartialEq, Eq, Drop)]
pub struct Resumed {
    pub batches: List<ResumedBatch>,
}
