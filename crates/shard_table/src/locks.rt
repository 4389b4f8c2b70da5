// The locks: under each locked hash its batch and the place of its entry.
ghost use Rattle.std.specs.Prelude.{◌≡◌, ◌+◌, ◌≤◌, ◌<◌, ◌^◌, [], None, Some, is_some, if◌then◌else◌, length, OnOk, OnErr};
ghost use Rattle.cbdc_model.specs.Records.{Digest, same_digest};
ghost use Rattle.shard_table.specs.Entries.{lookup};

use crate::HashSlots;
use cbdc_types::{BatchId, Hash};
use std::alloc::{AllocError, Global};
use std::marker::Model;

/// A map from locked hashes to the batch and the place of the entry that hold them, with room for so many more.
#[derive(Drop)]
pub struct Locks {
    slots: HashSlots<(BatchId, u32)>,
}

impl Model for Locks {
    ghost use Rattle.shard_table.specs.LockMembers.{LocksOf};

    ghost Value = { LocksOf };

    ghost view = { λ l. record { held = l.slots.entries; spare = l.slots.spare } };
}

impl Locks {
    /// No locks and no room, which takes no memory.
    pub fn new(alloc: Global) -> Locks
        ensures held { result.held ≡ [] }
        ensures spare { result.spare ≡ 0 }
    {
        Locks {
            slots: HashSlots::new(alloc),
        }
    }

    /// Makes room for n more locks. Where memory runs out the locks are as before.
    pub fn reserve(&mut self, n: u64) -> Result<(), AllocError>
        ensures room { OnOk result (n ≤ self.new.spare) }
        ensures same { (y : Digest) → lookup self.new.held y ≡ lookup self.old.held y }
        ensures grows { self.old.spare ≤ self.new.spare }
        ensures bound { self.new.spare < 2 ^ 62 }
        ensures err { OnErr result (self.new ≡ self.old) }
    {
        self.slots.reserve(n)
    }

    /// Locks a free hash for the entry at this place of a batch. Takes no memory.
    pub fn take(&mut self, x: Hash, by: BatchId, place: u32)
        requires free { lookup self.old.held x ≡ None }
        requires room { 1 ≤ self.old.spare }
        ensures held { (y : Digest) → lookup self.new.held y
            ≡ (if same_digest x y then Some (by, place) else lookup self.old.held y) }
        ensures spare { self.new.spare + 1 ≡ self.old.spare }
    {
        self.slots.insert(x, (by, place));
    }

    /// Frees a hash, if it is locked. Takes no memory.
    pub fn release(&mut self, x: &Hash)
        ensures held { (y : Digest)
            → lookup self.new.held y ≡ (if same_digest x.now y then None else lookup self.old.held y) }
        ensures spare { self.new.spare
            ≡ self.old.spare + (if is_some (lookup self.old.held x.now) then 1 else 0) }
    {
        self.slots.remove(x);
    }

    /// The batch and the place that hold the hash. Takes no memory.
    pub fn holder(&self, x: &Hash) -> Option<(BatchId, u32)>
        ensures { result ≡ lookup self.now.held x.now }
    {
        self.slots.get(x)
    }

    /// For how many more locks there is room. Takes no memory.
    pub fn spare(&self) -> u64
        ensures { result ≡ self.now.spare }
    {
        self.slots.spare()
    }
}
