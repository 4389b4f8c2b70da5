// Names of lanes, batches and nodes, and stamps.
use std::marker::Model;

/// A lane: its coordinator's number times the lanes of a coordinator, plus its place there.
#[derive(Clone, Copy, Debug, PartialEq, Eq)]
pub struct LaneId(pub u32);

impl Model for LaneId {
    ghost use Rattle.std.specs.Prelude.{ℕ};

    ghost Value = { ℕ };

    ghost view = { λ l. l.0 };

    ghost inverse = { λ n. record { 0 = n } };
}

/// A node: the coordinators come first, then the shards.
#[derive(Clone, Copy, Debug, PartialEq, Eq)]
pub struct NodeId(pub u32);

impl Model for NodeId {
    ghost use Rattle.std.specs.Prelude.{ℕ};

    ghost Value = { ℕ };

    ghost view = { λ n. n.0 };

    ghost inverse = { λ n. record { 0 = n } };
}

/// A Lamport stamp: a record's is greater than those of all that it rests on.
#[derive(Clone, Copy, Debug, PartialEq, Eq)]
pub struct Stamp(pub u64);

impl Model for Stamp {
    ghost use Rattle.std.specs.Prelude.{ℕ};

    ghost Value = { ℕ };

    ghost view = { λ s. s.0 };

    ghost inverse = { λ n. record { 0 = n } };
}

/// A batch: the lane that it runs on, and its number there, from 1.
#[derive(Clone, Copy, Debug, PartialEq, Eq)]
pub struct BatchId {
    pub lane: LaneId,
    pub number: u64,
}
