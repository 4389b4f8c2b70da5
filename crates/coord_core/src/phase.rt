// Where a lane stands.

/// Where a lane stands, with the number of its last batch: 0 where there was none.
#[derive(Clone, Copy, Debug, PartialEq, Eq)]
pub enum LanePhase {
    /// No batch is open.
    Idle(u64),
    /// The batch's Prepare is written.
    Prepared(u64),
    /// The batch's Commit is written.
    Committed(u64),
    /// The batch's Discard is written.
    Discarded(u64),
}
