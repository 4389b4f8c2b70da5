// The calls at a shard, and why a node refuses one.
use crate::{Decisions, Part, Reply};
use base_types::{BatchId, List, Stamp};
use thiserror::Error;

/// Lock this part for the batch. The cause is the stamp of its Prepare.
#[derive(Debug, PartialEq, Eq, Drop)]
pub struct LockCall {
    pub batch: BatchId,
    pub part: Part,
    pub cause: Stamp,
}

/// Apply the batch with these decisions. The cause is the stamp of its Commit.
#[derive(Debug, PartialEq, Eq, Drop)]
pub struct FinishCall {
    pub batch: BatchId,
    pub decisions: Decisions,
    pub cause: Stamp,
}

/// Forget the batch. The cause is the stamp of its Discard.
#[derive(Clone, Copy, Debug, PartialEq, Eq)]
pub struct ForgetCall {
    pub batch: BatchId,
    pub cause: Stamp,
}

/// The replies to a part, and the stamp of the Lock that keeps them.
#[derive(Debug, PartialEq, Eq, Drop)]
pub struct Replied {
    pub replies: List<Reply>,
    pub stamp: Stamp,
}

/// Why a shard refuses a call. What it kept, or where the call differs from what it kept, comes with it.
#[derive(Clone, Copy, Debug, PartialEq, Eq, Error)]
pub enum Refused {
    /// The lane is past this batch: its number is the one kept.
    #[error("the lane is past this batch: the number kept is {kept}")]
    Stale { kept: u64 },
    /// A batch of the lane is unfinished here.
    #[error("batch {kept} of the lane is unfinished")]
    LaneOpen { kept: u64 },
    /// No Lock of this batch is here: the lane's last number is the one kept.
    #[error("the batch is not locked: the number kept is {kept}")]
    NotLocked { kept: u64 },
    /// The batch is locked and not finished.
    #[error("batch {kept} is locked and not finished")]
    NotFinished { kept: u64 },
    /// The batch was locked with another part: the first place that differs, or the shorter length.
    #[error("the batch was locked with another part, from place {at} on")]
    OtherPart { at: u64 },
    /// The batch was finished with other decisions, or these do not fit its replies: the first place that differs, or the shorter length.
    #[error("the batch has other decisions, from place {at} on")]
    OtherOutcome { at: u64 },
    /// The cause is no later than the lane's last record here.
    #[error("the cause is no later than stamp {}", .kept.0)]
    EarlyStamp { kept: Stamp },
}

/// Why a node did not do what was asked.
#[derive(Clone, Copy, Debug, PartialEq, Eq, Error)]
pub enum NodeFault {
    /// An append failed since the node was opened. The disk's count of faults stood there after it.
    #[error("an earlier append failed, at fault {since} of the disk")]
    Broken { since: u64 },
    #[error(transparent)]
    Refused(Refused),
    /// The record's stamp would pass its bound.
    #[error("the clock is at its end: its next stamp would be {}", .stamp.0)]
    ClockEnd { stamp: Stamp },
    /// `used + need` bytes do not fit the disk.
    #[error("the disk is full: {used} bytes used, {need} needed, {capacity} in all")]
    Full { used: u64, need: u64, capacity: u64 },
    #[error("the disk failed")]
    DiskFault,
    #[error("out of memory")]
    Memory,
}

/// Why a node could not be opened.
#[derive(Clone, Copy, Debug, PartialEq, Eq, Error)]
pub enum NodeOpenFault {
    #[error("the disk failed")]
    DiskFault,
    /// There is no whole first record.
    #[error("the disk has no whole first record")]
    NotReady,
    /// The first record is of the other kind of node.
    #[error("the disk is of the other kind of node")]
    OtherKind,
    /// The record at this place is opened and not whole, or not the next one.
    #[error("the journal is damaged at byte {at}")]
    Damaged { at: u64 },
    /// What is kept free for unfinished batches does not fit the disk.
    #[error("the disk is full: {used} bytes used, {need} needed, {capacity} in all")]
    Full { used: u64, need: u64, capacity: u64 },
    #[error("out of memory")]
    Memory,
}
