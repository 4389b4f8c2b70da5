// How large a ledger is.
ghost use Rattle.std.specs.Prelude.{◌≡◌, ◌+◌, ◌*◌, ◌≤◌, ◌<◌, ℕ, IfOk, IfErr, MatchResult};
ghost use Rattle.base_types.specs.Fields.{IsFirstBad};

use std::marker::Model;
use thiserror::Error;

/// How many shards, coordinators, lanes of each coordinator, and transactions of a batch at most.
#[derive(Clone, Copy, Debug, PartialEq, Eq)]
pub struct Shape {
    shards: u32,
    coordinators: u32,
    lanes: u32,
    batch: u32,
}

impl Model for Shape {
    ghost use Rattle.base_types.specs.Limits.{ShapeOf, IsWithinLimits};

    ghost Value = { ShapeOf };

    ghost view = { λ s. record { shards = s.shards; coordinators = s.coordinators; lanes = s.lanes; batch = s.batch } };

    ghost invariant = { λ s. IsWithinLimits (record { shards = s.shards; coordinators = s.coordinators; lanes = s.lanes; batch = s.batch }) };

    ghost inverse = { λ s. record { shards = s.shards; coordinators = s.coordinators; lanes = s.lanes; batch = s.batch } };
}

/// A field of a shape.
#[derive(Clone, Copy, Debug, PartialEq, Eq)]
pub enum ShapeField {
    Shards,
    Coordinators,
    Lanes,
    Batch,
}

/// The first field that is outside its limit.
#[derive(Clone, Copy, Debug, PartialEq, Eq, Error)]
#[error("there may be {}, not {value}", limits(.field))]
pub struct BadShape {
    pub field: ShapeField,
    pub value: u32,
}

// How many there may be.
fn limits(field: &ShapeField) -> &'static str {
    match field {
        ShapeField::Shards => "1 to 64 shards",
        ShapeField::Coordinators => "1 to 16 coordinators",
        ShapeField::Lanes => "1 to 16 lanes",
        ShapeField::Batch => "1 to 1024 transactions in a batch",
    }
}

impl Shape {
    ghost use Rattle.base_types.specs.Limits.{IsWithinLimits};

    /// The shape with these numbers, where each is within its limit: 1 to 64 shards, 1 to 16
    /// coordinators, 1 to 16 lanes, batches of 1 to 1,024.
    pub fn new(shards: u32, coordinators: u32, lanes: u32, batch: u32) -> Result<Shape, BadShape>
        ensures { MatchResult result
            (λ s. s ≡ record { shards = shards; coordinators = coordinators; lanes = lanes; batch = batch })
            (λ e. IsFirstBad shards coordinators lanes batch e) }
    {
        if shards < 1 || shards > 64 {
            return Err(BadShape {
                field: ShapeField::Shards,
                value: shards,
            });
        }
        if coordinators < 1 || coordinators > 16 {
            return Err(BadShape {
                field: ShapeField::Coordinators,
                value: coordinators,
            });
        }
        if lanes < 1 || lanes > 16 {
            return Err(BadShape {
                field: ShapeField::Lanes,
                value: lanes,
            });
        }
        if batch < 1 || batch > 1024 {
            return Err(BadShape {
                field: ShapeField::Batch,
                value: batch,
            });
        }
        Ok(Shape {
            shards,
            coordinators,
            lanes,
            batch,
        })
    }

    /// How many shards there are, 1 to 64.
    pub fn shards(&self) -> u32
        ensures value { result ≡ self.now.shards }
        ensures limits { IsWithinLimits self.now }
    {
        self.shards
    }

    /// How many coordinators there are, 1 to 16.
    pub fn coordinators(&self) -> u32
        ensures value { result ≡ self.now.coordinators }
        ensures limits { IsWithinLimits self.now }
    {
        self.coordinators
    }

    /// How many lanes each coordinator has, 1 to 16.
    pub fn lanes(&self) -> u32
        ensures value { result ≡ self.now.lanes }
        ensures limits { IsWithinLimits self.now }
    {
        self.lanes
    }

    /// How many transactions a batch has at most, 1 to 1,024.
    pub fn batch(&self) -> u32
        ensures value { result ≡ self.now.batch }
        ensures limits { IsWithinLimits self.now }
    {
        self.batch
    }

    /// How many lanes there are over all coordinators, 1 to 256.
    pub fn lane_count(&self) -> u32
        ensures value { result ≡ self.now.coordinators * self.now.lanes }
        ensures some { 0 < result }
        ensures bound { result ≤ 256 }
    {
        self.coordinators * self.lanes
    }

    /// How many nodes there are, coordinators and shards, 2 to 80.
    pub fn node_count(&self) -> u32
        ensures value { result ≡ self.now.coordinators + self.now.shards }
        ensures bound { result ≤ 80 }
    {
        self.coordinators + self.shards
    }
}
