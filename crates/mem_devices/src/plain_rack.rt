// A rack in memory whose disks never fail.
ghost use Rattle.std.specs.Prelude.{◌≡◌, ◌≤◌, ◌<◌, ℕ, [], true, length, slice_get, IfOk};
ghost use Rattle.mem_devices.specs.Places.{disk_in, faults_at, HasNoDiskOut, IsOut};

use crate::PlainDisk;
use base_types::NodeId;
use outside::{Failed, Rack};
use std::alloc::{AllocError, Global};

/// How many nodes a ledger may have: 16 coordinators and 64 shards.
const PLACES: u32 = 80;

/// A place for each node that a ledger may have, with a disk that never fails. A node past them is a fault.
///
/// Keeps the trait `Rack`: a place for each of the 80 nodes that a ledger may have, with a disk that never fails; the count of each of these nodes
/// is 0 always, and a take past them is a fault.
#[derive(Drop)]
pub struct PlainRack {
    places: Vec<Option<PlainDisk>>,
    misses: u64,
    ghost whole: { length places.items ≡ 80 },
}

// An empty disk, with room where it is a node's.
fn empty_disk(alloc: Global, of_node: bool, capacity: usize) -> Result<PlainDisk, AllocError>
    ensures empty { IfOk result (λ d. d.bytes.items ≡ []) }
    ensures room { of_node ≡ true → IfOk result (λ d. d.capacity ≡ capacity) }
{
    PlainDisk::new(alloc, if of_node { capacity } else { 0 })
}

impl PlainRack {
    ghost use Rattle.mem_devices.specs.PlainRacks.{NoPlainDiskOut, IsEmptyAt};

    /// An empty disk with so much room for each of so many nodes, and disks without room in the places behind them.
    pub fn new(alloc: Global, nodes: u32, capacity: usize) -> Result<PlainRack, AllocError>
        ensures all { IfOk result NoPlainDiskOut }
        ensures empty { IfOk result (λ r. (n : ℕ) → n < nodes → n < 80 → IsEmptyAt r capacity n) }
    {
        let mut places = Vec::with_capacity(alloc, PLACES as usize)?;
        'places: for node in 0..PLACES {
            let disk = empty_disk(alloc, node < nodes, capacity)?;
            places.push(Some(disk))?;
        }
        Ok(PlainRack { places, misses: 0 })
    }
}

impl Rack for PlainRack {
    type Disk = PlainDisk;

    ghost held = { λ r n. disk_in (slice_get r.places.items n) };

    ghost count = { λ r n. faults_at r.misses n };

    ghost can_take = { λ r n. HasNoDiskOut (slice_get r.places.items n) };

    ghost can_put = { λ r n k. IsOut (slice_get r.places.items n) };

    fn take(&mut self, node: NodeId) -> Result<PlainDisk, Failed> {
        let at = node.0 as usize;
        if self.places.len() <= at {
            self.misses = self.misses.saturating_add(1);
            return Err(Failed);
        }
        match self.places[at].take() {
            Some(disk) => Ok(disk),
            None => unreachable!(),
        }
    }

    fn put(&mut self, node: NodeId, disk: PlainDisk) {
        self.places[node.0 as usize] = Some(disk);
    }
}
