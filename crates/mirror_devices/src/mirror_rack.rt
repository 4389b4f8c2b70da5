// A rack in memory whose disks never fail, with several disks for a node.
ghost use Rattle.std.specs.Prelude.{◌≡◌, ◌≤◌, ◌<◌, ◌+◌, ℕ, [], true, length, slice_get, nat_lt, if◌then◌else◌, IfOk};
ghost use Rattle.mem_devices.specs.Places.{disk_in, faults_at, HasNoDiskOut, IsOut};
ghost use Rattle.mirror_devices.specs.Empty.{IsEmptyMirror, copies_at};

use crate::Mirror;
use base_types::NodeId;
use mem_devices::PlainDisk;
use outside::{Failed, Rack};
use std::alloc::{AllocError, Global};

/// How many nodes a ledger may have: 16 coordinators and 64 shards.
const PLACES: u32 = 80;

/// A place for each node that a ledger may have, with disks that never fail and are written alike, as one. A node past them is a fault.
///
/// Keeps the trait `Rack`: a place for each of the 80 nodes that a ledger may have, with such disks; the count of each of these nodes is 0 always, and
/// a take past them is a fault.
#[derive(Drop)]
pub struct MirrorRack {
    places: Vec<Option<Mirror<PlainDisk>>>,
    misses: u64,
    ghost whole: { length places.items ≡ 80 },
}

// So many empty disks, each with so much room, as one.
fn empty_mirror(
    alloc: Global,
    copies: u32,
    capacity: usize,
) -> Result<Mirror<PlainDisk>, AllocError>
    requires { 1 ≤ copies }
    ensures { IfOk result (λ m. IsEmptyMirror copies capacity m) }
{
    let mut disks = Vec::with_capacity(alloc, copies as usize)?;
    'disks: for _made in 0..copies {
        let disk = PlainDisk::new(alloc, capacity)?;
        disks.push(disk)?;
    }
    Ok(Mirror::new(disks))
}

// How many disks a node has: a coordinator one, a shard so many more.
fn copies_of(node: u32, coordinators: u32, replicas: u32) -> u32
    requires { replicas ≤ 3 }
    ensures some { 1 ≤ result }
    ensures copies { result ≡ copies_at coordinators replicas node }
{
    if node < coordinators { 1 } else { replicas + 1 }
}

// How much room each disk of a place has: none behind the nodes.
fn room_of(node: u32, nodes: u32, capacity: usize) -> usize
    ensures { result ≡ if nat_lt node nodes then capacity else 0 }
{
    if node < nodes { capacity } else { 0 }
}

impl MirrorRack {
    ghost use Rattle.mirror_devices.specs.MirrorRacks.{NoMirrorOut, IsEmptyAt};

    /// Empty disks with so much room for each of so many nodes, one for a coordinator and so many more for a shard, and disks without room in the
    /// places behind them.
    pub fn new(
        alloc: Global,
        coordinators: u32,
        nodes: u32,
        replicas: u32,
        capacity: usize,
    ) -> Result<MirrorRack, AllocError>
        requires { replicas ≤ 3 }
        ensures all { IfOk result NoMirrorOut }
        ensures empty { IfOk result (λ r. (n : ℕ) → n < nodes → n < 80
            → IsEmptyAt r (copies_at coordinators replicas n) capacity n) }
    {
        let mut places = Vec::with_capacity(alloc, PLACES as usize)?;
        'places: for node in 0..PLACES {
            let copies = copies_of(node, coordinators, replicas);
            let room = room_of(node, nodes, capacity);
            let mirror = empty_mirror(alloc, copies, room)?;
            places.push(Some(mirror))?;
        }
        Ok(MirrorRack { places, misses: 0 })
    }
}

impl Rack for MirrorRack {
    type Disk = Mirror<PlainDisk>;

    ghost held = { λ r n. disk_in (slice_get r.places.items n) };

    ghost count = { λ r n. faults_at r.misses n };

    ghost can_take = { λ r n. HasNoDiskOut (slice_get r.places.items n) };

    ghost can_put = { λ r n k. IsOut (slice_get r.places.items n) };

    fn take(&mut self, node: NodeId) -> Result<Mirror<PlainDisk>, Failed> {
        let at = node.0 as usize;
        if self.places.len() <= at {
            self.misses = self.misses.saturating_add(1);
            return Err(Failed);
        }
        match self.places[at].take() {
            Some(disk) => Ok(disk),
            None => unreachable!(),
        }
    }

    fn put(&mut self, node: NodeId, disk: Mirror<PlainDisk>) {
        self.places[node.0 as usize] = Some(disk);
    }
}
