// The table: hashes with nothing kept under them.
ghost use Rattle.std.specs.Prelude.{◌≡◌, ◌+◌, ◌≤◌, ◌<◌, ◌^◌, ◌↔◌, [], false, not, ◌&&◌, ◌||◌, if◌then◌else◌, length, IsTrue, OnOk, OnErr};
ghost use Rattle.cbdc_model.specs.Records.{Digest, same_digest};
ghost use Rattle.cbdc_model.specs.Status.{has};
ghost use Rattle.shard_table.specs.Members.{IsSet};

use crate::HashSlots;
use cbdc_types::Hash;
use std::alloc::{AllocError, Global};
use std::marker::Model;

/// A set of hashes, with room for so many more.
#[derive(Drop)]
pub struct Table {
    slots: HashSlots<()>,
}

impl Model for Table {
    ghost use Rattle.std.specs.Prelude.{map};
    ghost use Rattle.shard_table.specs.Members.{TableOf};

    ghost Value = { TableOf };

    ghost view = { λ t. record { hashes = map (λ e. e.hash) t.slots.entries; spare = t.slots.spare } };
}

impl Table {
    /// The empty set with no room, which takes no memory.
    pub fn new(alloc: Global) -> Table
        ensures hashes { result.hashes ≡ [] }
        ensures spare { result.spare ≡ 0 }
    {
        Table {
            slots: HashSlots::new(alloc),
        }
    }

    /// Makes room for n more hashes. Where memory runs out the set is as before.
    pub fn reserve(&mut self, n: u64) -> Result<(), AllocError>
        ensures room { OnOk result (n ≤ self.new.spare) }
        ensures same { (y : Digest) → has self.new.hashes y ≡ has self.old.hashes y }
        ensures len { length self.new.hashes ≡ length self.old.hashes }
        ensures grows { self.old.spare ≤ self.new.spare }
        ensures bound { self.new.spare < 2 ^ 62 }
        ensures err { OnErr result (self.new ≡ self.old) }
    {
        self.slots.reserve(n)
    }

    /// Puts a hash into the set. Takes no memory.
    pub fn insert(&mut self, x: Hash)
        requires { has self.old.hashes x ≡ false → 1 ≤ self.old.spare }
        ensures members { (y : Digest) → has self.new.hashes y ≡ (same_digest x y || has self.old.hashes y) }
        ensures len { length self.new.hashes
            ≡ length self.old.hashes + (if has self.old.hashes x then 0 else 1) }
        ensures spare { self.new.spare + (if has self.old.hashes x then 0 else 1) ≡ self.old.spare }
    {
        if self.slots.get(&x).is_none() {
            self.slots.insert(x, ());
        }
    }

    /// Takes a hash out of the set, if it is there. Takes no memory.
    pub fn remove(&mut self, x: &Hash)
        ensures members { (y : Digest)
            → has self.new.hashes y ≡ (not (same_digest x.now y) && has self.old.hashes y) }
        ensures len { length self.new.hashes + (if has self.old.hashes x.now then 1 else 0)
            ≡ length self.old.hashes }
        ensures spare { self.new.spare ≡ self.old.spare + (if has self.old.hashes x.now then 1 else 0) }
    {
        self.slots.remove(x);
    }

    /// Whether the hash is in the set. Takes no memory.
    pub fn contains(&self, x: &Hash) -> bool
        ensures { result ≡ has self.now.hashes x.now }
    {
        self.slots.get(x).is_some()
    }

    /// How many hashes the set has. Takes no memory.
    pub fn len(&self) -> u64
        ensures len { result ≡ length self.now.hashes }
        ensures set { IsSet self.now.hashes }
    {
        self.slots.len()
    }

    /// Whether the set has no hash. Takes no memory.
    pub fn is_empty(&self) -> bool
        ensures { IsTrue result ↔ (self.now.hashes ≡ []) }
    {
        self.slots.is_empty()
    }

    /// For how many more hashes there is room. Takes no memory.
    pub fn spare(&self) -> u64
        ensures { result ≡ self.now.spare }
    {
        self.slots.spare()
    }
}
