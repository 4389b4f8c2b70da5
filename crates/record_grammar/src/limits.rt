// Stamps, batches and nodes that a record may have.
ghost use Rattle.std.specs.Prelude.{◌≡◌, ◌↔◌, ◌<◌, ◌≤◌, IsTrue};
ghost use Rattle.cbdc_model.specs.Grammar.{IsBatchOf, IsEarly, IsLater, IsShard};

use cbdc_types::{BatchId, Header, Shape, Stamp};

// Whether a Lock or a Prepare may have this stamp.
pub(crate) fn is_early(stamp: Stamp) -> bool
    ensures { IsTrue result ↔ IsEarly stamp }
{
    1 <= stamp.0 && stamp.0 <= 1 << 62
}

// Whether the records behind a Lock or a Prepare may have this stamp.
pub(crate) fn is_later(stamp: Stamp) -> bool
    ensures { IsTrue result ↔ IsLater stamp }
{
    1 <= stamp.0 && stamp.0 <= (1 << 62) + (1 << 20)
}

/// Whether a batch is of a lane of this shape, with a number within its limit.
pub fn is_batch_of(shape: &Shape, batch: &BatchId) -> bool
    ensures { IsTrue result ↔ IsBatchOf shape.now batch.now }
{
    batch.lane.0 < shape.lane_count() && 1 <= batch.number && batch.number <= 1 << 62
}

// Whether a record may have so many items.
pub(crate) fn has_size(shape: &Shape, len: usize) -> bool
    ensures { IsTrue result ↔ ((1 ≤ len) × (len ≤ shape.now.batch)) }
{
    1 <= len && len <= shape.batch() as usize
}

pub(crate) fn is_shard(h: &Header) -> bool
    ensures { IsTrue result ↔ IsShard h.now.shape h.now.node }
{
    h.shape.coordinators() <= h.node.0 && h.node.0 < h.shape.node_count()
}

pub(crate) fn is_coordinator(h: &Header) -> bool
    ensures { IsTrue result ↔ (h.now.node < h.now.shape.coordinators) }
{
    h.node.0 < h.shape.coordinators()
}
