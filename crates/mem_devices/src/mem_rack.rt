// A rack in memory.
ghost use Rattle.std.specs.Prelude.{◌≡◌, ◌≤◌, ℕ, slice_get, slice_set, Some, is_none, map, option_map, IfOk, OnErr};
ghost use Rattle.mem_devices.specs.Faults.{FailsWhere};
ghost use Rattle.mem_devices.specs.Slots.{held_in, slot_faults, IsNotOut, IsOutBelow};

use base_types::NodeId;
use outside::{Disk, Failed, Rack};
use std::alloc::{AllocError, Global};
use std::mem;

/// The place of a node: its disk, or the count of faults that it was taken with.
#[derive(Drop)]
pub enum DiskSlot<D> {
    In(D),
    Out(u64),
}

/// The disks by node. A node past the list is a fault.
///
/// `take` and `put`: that node's disk comes out, or goes back into its place, and no other place changes; `take` fails, and the count goes up, by
/// one, where the rack has no place for the node, and nowhere else. Tested in `node_rows` (`devices.rows`).
#[derive(Drop)]
pub struct MemRack<D: Disk + Drop> {
    slots: Vec<DiskSlot<D>>,
    misses: u64,
}

impl<D: Disk + Drop> MemRack<D> {
    ghost use Rattle.mem_devices.specs.Racks.{NoneOut};

    /// The disks in the order of their nodes, all in their places.
    #[tactic(auto, using(crate::proofs::Places::all_in))]
    pub fn new(alloc: Global, disks: Vec<D>) -> Result<MemRack<D>, AllocError>
        ensures slots { IfOk result (λ r. r.slots.items ≡ map (λ d. DiskSlot.In d) disks.items) }
        ensures whole { IfOk result (λ r. NoneOut r) }
    {
        let slots = places_of(alloc, disks)?;
        Ok(MemRack { slots, misses: 0 })
    }

    /// The disk of a node, if it is in its place.
    pub fn disk(&self, node: NodeId) -> Option<&D>
        ensures { option_map (λ d. d.now) result ≡ held_in (slice_get self.now.slots.items node) }
    {
        match self.slots.get(node.0 as usize) {
            Some(slot) => disk_in(slot),
            None => None,
        }
    }
}

// Each disk in its place.
fn places_of<D: Disk + Drop>(alloc: Global, disks: Vec<D>) -> Result<Vec<DiskSlot<D>>, AllocError>
    ensures { IfOk result (λ v. v.items ≡ map (λ d. DiskSlot.In d) disks.items) }
{
    disks.into_iter().map(|d| DiskSlot::In(d)).collect(alloc)
}

// The disk that is in its place.
fn disk_in<D: Disk + Drop>(slot: &DiskSlot<D>) -> Option<&D>
    ensures { option_map (λ d. d.now) result ≡ held_in (Some slot.now) }
{
    match slot {
        DiskSlot::In(disk) => Some(disk),
        DiskSlot::Out(_) => None,
    }
}

// Takes the disk out of its place.
fn take_out<D: Disk + Drop>(slot: &mut DiskSlot<D>) -> D
    requires { IsNotOut (Some slot.old) }
    ensures was { slot.old ≡ DiskSlot.In result }
    ensures now { slot.new ≡ DiskSlot.Out (D.count result) }
{
    match mem::replace(slot, DiskSlot::Out(0)) {
        DiskSlot::In(disk) => {
            *slot = DiskSlot::Out(disk.faults());
            disk
        }
        DiskSlot::Out(_) => unreachable!(),
    }
}

// Puts a disk into its place.
fn put_in<D: Disk + Drop>(slot: &mut DiskSlot<D>, disk: D)
    ensures now { slot.new ≡ DiskSlot.In disk }
{
    *slot = DiskSlot::In(disk);
}

impl<D: Disk + Drop> Rack for MemRack<D> {
    type Disk = D;

    ghost held = { λ r n. held_in (slice_get r.slots.items n) };

    ghost count = { λ r n. slot_faults D.count r.misses (slice_get r.slots.items n) };

    ghost can_take = { λ r n. IsNotOut (slice_get r.slots.items n) };

    ghost can_put = { λ r n k. IsOutBelow (slice_get r.slots.items n) k };

    fn take(&mut self, node: NodeId) -> Result<D, Failed>
        requires { IsNotOut (slice_get self.old.slots.items node) }
        ensures taken { IfOk result (λ d. (slice_get self.old.slots.items node ≡ Some (DiskSlot.In d))
            × (self.new.slots.items ≡ slice_set self.old.slots.items node (DiskSlot.Out (D.count d)))) }
        ensures out { IfOk result (λ d. (k : ℕ) → D.count d ≤ k
            → IsOutBelow (slice_get self.new.slots.items node) k) }
        ensures same { OnErr result (self.new.slots ≡ self.old.slots) }
        ensures later { (n : ℕ) → slot_faults D.count self.old.misses (slice_get self.old.slots.items n)
            ≤ slot_faults D.count self.new.misses (slice_get self.new.slots.items n) }

        // It fails exactly where the rack has no place for the node.
        ensures exact { FailsWhere
            (is_none (slice_get self.old.slots.items node)) self.old.misses self.new.misses result }
    {
        let at = node.0 as usize;
        if self.slots.len() <= at {
            self.misses = self.misses.saturating_add(1);
            return Err(Failed);
        }
        let slot = &mut self.slots[at];
        Ok(take_out(slot))
    }

    fn put(&mut self, node: NodeId, disk: D)
        requires { IsOutBelow (slice_get self.old.slots.items node) (D.count disk) }
        ensures back { self.new.slots.items ≡ slice_set self.old.slots.items node (DiskSlot.In disk) }
        ensures count { self.new.misses ≡ self.old.misses }
    {
        let slot = &mut self.slots[node.0 as usize];
        put_in(slot, disk);
    }
}
