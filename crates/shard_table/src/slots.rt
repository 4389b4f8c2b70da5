// The slots.
ghost use Rattle.std.specs.Prelude.{◌≡◌, ℕ, ◌+◌, ◌*◌, ◌≤◌, ◌<◌, ◌^◌, ◌↔◌, [], None, Some, length, if◌then◌else◌, is_some, IsTrue, replicate, IfOk, OnOk, OnErr};
ghost use Rattle.cbdc_model.specs.Records.{Digest, same_digest};
ghost use Rattle.shard_table.specs.Entries.{lookup, IsOnce};
ghost use Rattle.shard_table.specs.Slots.{limit_of, gather, AreOnce, IsSize, IsSound};

use crate::pages::Pages;
use crate::placing::{fill, get, take_out};
use base_types::Hash;
use std::alloc::{AllocError, Global};
use std::marker::Model;

/// A hash with what is kept under it.
#[derive(Clone, Copy)]
pub struct Kept<V> {
    pub hash: Hash,
    pub value: V,
}

/// Values under hashes, with room for so many more.
#[derive(Drop)]
pub struct HashSlots<V> {
    alloc: Global,
    slots: Pages<V>,
    count: u64,
}

impl<V> Model for HashSlots<V> {
    ghost use Rattle.std.specs.Prelude.{◌≡◌, ◌-◌, ◌+◌, ◌≤◌, ◌^◌, length};
    ghost use Rattle.shard_table.specs.Entries.{SlotsOf};
    ghost use Rattle.shard_table.specs.Slots.{gather, limit_of, IsFilled};

    ghost Value = { SlotsOf V };

    ghost view = { λ s. record { entries = gather s.slots; spare = limit_of (length s.slots) - s.count } };

    ghost invariant = { λ s. IsFilled s.slots s.count };
}

/// The most hashes that there may ever be room for.
const MOST: u64 = 1 << 60;

// The least number of slots, doubled from so many on, that has room for so many hashes.
fn slots_for(need: u64, slots: u64) -> u64
    requires few { need ≤ 2 ^ 60 }
    requires slots { slots ≤ 2 ^ 62 }
    requires size { IsSize slots }
    ensures room { need ≤ limit_of result }
    ensures bound { result ≤ 2 ^ 62 }
    ensures size { (k : ℕ) × (result ≡ 256 * 2 ^ k) }
{
    let mut wanted = slots.max(256);
    while wanted / 4 * 3 < need {
        wanted *= 2;
    }
    wanted
}

// Puts the hashes of these slots into free ones.
fn fill_all<V: Copy>(slots: &Pages<V>, wider: &mut Pages<V>)
    requires once { AreOnce slots.now }
    requires size { IsSize (length wider.old) }
    requires room { length (gather slots.now) < length wider.old }
    requires free { wider.old ≡ replicate (length wider.old) None }
    ensures len { length wider.new ≡ length wider.old }
    ensures sound { IsSound wider.new (length wider.old) }
    ensures kept { (x : Digest) → lookup (gather wider.new) x ≡ lookup (gather slots.now) x }
    ensures count { length (gather wider.new) ≡ length (gather slots.now) }
{
    for at in 0..slots.len() {
        if let Some(kept) = *slots.at(at) {
            fill(wider, kept);
        }
    }
}

// The same hashes in so many slots. All their pages are taken before a hash is put into one.
fn moved<V: Copy>(alloc: Global, slots: &Pages<V>, homes: u64) -> Result<Pages<V>, AllocError>
    requires once { AreOnce slots.now }
    requires size { (k : ℕ) × (homes ≡ 256 * 2 ^ k) }
    requires bound { homes ≤ 2 ^ 62 }
    requires room { length (gather slots.now) ≤ limit_of homes }
    ensures len { IfOk result (λ p. length p ≡ homes) }
    ensures sound { IfOk result (λ p. IsSound p homes) }
    ensures kept { IfOk result (λ p. (x : Digest) → lookup (gather p) x ≡ lookup (gather slots.now) x) }
    ensures count { IfOk result (λ p. length (gather p) ≡ length (gather slots.now)) }
{
    let mut wider = Pages::vacant(alloc, homes / 256)?;
    fill_all(slots, &mut wider);
    Ok(wider)
}

impl<V: Copy> HashSlots<V> {
    /// No hash and no room, which takes no memory.
    pub fn new(alloc: Global) -> HashSlots<V>
        ensures entries { result.entries ≡ [] }
        ensures spare { result.spare ≡ 0 }
    {
        HashSlots {
            alloc,
            slots: Pages::new(alloc),
            count: 0,
        }
    }

    /// How many hashes there are. Takes no memory.
    pub fn len(&self) -> u64
        ensures len { result ≡ length self.now.entries }
        ensures once { IsOnce self.now.entries }
    {
        self.count
    }

    /// Whether there is no hash. Takes no memory.
    pub fn is_empty(&self) -> bool
        ensures { IsTrue result ↔ (self.now.entries ≡ []) }
    {
        self.count == 0
    }

    /// For how many more hashes there is room. Takes no memory.
    pub fn spare(&self) -> u64
        ensures { result ≡ self.now.spare }
    {
        self.slots.len() as u64 / 4 * 3 - self.count
    }

    /// What is kept under a hash. Takes no memory.
    pub fn get(&self, x: &Hash) -> Option<V>
        ensures { result ≡ lookup self.now.entries x.now }
    {
        get(&self.slots, x)
    }

    /// Makes room for n more hashes. Where memory runs out all is as before.
    pub fn reserve(&mut self, n: u64) -> Result<(), AllocError>
        ensures room { OnOk result (n ≤ self.new.spare) }
        ensures kept { (x : Digest) → lookup self.new.entries x ≡ lookup self.old.entries x }
        ensures len { length self.new.entries ≡ length self.old.entries }
        ensures grows { self.old.spare ≤ self.new.spare }
        ensures bound { self.new.spare < 2 ^ 62 }
        ensures err { OnErr result (self.new ≡ self.old) }
    {
        if n <= self.spare() {
            return Ok(());
        }
        if n > MOST - self.count.min(MOST) {
            return Err(AllocError);
        }
        let homes = slots_for(self.count + n, self.slots.len() as u64);
        self.slots = moved(self.alloc, &self.slots, homes)?;
        Ok(())
    }

    /// Keeps a value under a hash that is not there. Takes no memory.
    pub fn insert(&mut self, x: Hash, value: V)
        requires absent { lookup self.old.entries x ≡ None }
        requires room { 1 ≤ self.old.spare }
        ensures kept { (y : Digest) → lookup self.new.entries y
            ≡ (if same_digest x y then Some value else lookup self.old.entries y) }
        ensures len { length self.new.entries ≡ length self.old.entries + 1 }
        ensures spare { self.new.spare + 1 ≡ self.old.spare }
    {
        fill(&mut self.slots, Kept { hash: x, value });
        self.count += 1;
    }

    /// Takes out what is kept under a hash, if it is there. Takes no memory.
    pub fn remove(&mut self, x: &Hash) -> Option<V>
        ensures value { result ≡ lookup self.old.entries x.now }
        ensures kept { (y : Digest)
            → lookup self.new.entries y ≡ (if same_digest x.now y then None else lookup self.old.entries y) }
        ensures len { length self.new.entries + (if is_some result then 1 else 0) ≡ length self.old.entries }
        ensures spare { self.new.spare ≡ self.old.spare + (if is_some result then 1 else 0) }
    {
        let value = take_out(&mut self.slots, x)?;
        self.count -= 1;
        Some(value)
    }
}
