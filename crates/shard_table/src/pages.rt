// Slots in pages of 256.
ghost use Rattle.std.specs.Prelude.{◌≡◌, ◌+◌, ◌*◌, ◌≤◌, ◌<◌, ◌^◌, [], None, length, set, replicate, IfOk};
ghost use Rattle.shard_table.specs.Slots.{slot_at};

use crate::Kept;
use std::alloc::{AllocError, Global};
use std::marker::Model;

/// Slots, in pages of 256.
#[derive(Drop)]
pub struct Pages<V> {
    pages: Vec<Vec<Option<Kept<V>>>>,
}

impl<V> Model for Pages<V> {
    ghost use Rattle.std.specs.Prelude.{◌≡◌, ◌≤◌, ◌^◌, length, List, Option, ℕ};
    ghost use Rattle.std.specs.List.{flat_map, AllByRecursion};
    ghost use Rattle.shard_table.specs.declared.slots.Kept.{Kept as TheKept};

    ghost Value = { List (Option (TheKept V)) };

    ghost view = { λ p. flat_map (λ v. v.items) p.pages.items };

    ghost invariant = { λ p. AllByRecursion (λ v. length v.items ≡ 256) p.pages.items × (length p.pages.items ≤ 2 ^ 54) };
}

// A page with no hash.
fn vacant_page<V: Copy>(alloc: Global) -> Result<Vec<Option<Kept<V>>>, AllocError>
    ensures { IfOk result (λ v. v.items ≡ replicate 256 None) }
{
    let mut page = Vec::with_capacity(alloc, 256)?;
    page.resize(256, None)?;
    Ok(page)
}

impl<V: Copy> Pages<V> {
    /// No page.
    pub fn new(alloc: Global) -> Pages<V>
        ensures { result ≡ [] }
    {
        Pages {
            pages: Vec::new(alloc),
        }
    }

    /// So many pages with no hash.
    pub fn vacant(alloc: Global, count: u64) -> Result<Pages<V>, AllocError>
        requires { count ≤ 2 ^ 54 }
        ensures { IfOk result (λ p. p ≡ replicate (count * 256) None) }
    {
        let mut pages = Vec::with_capacity(alloc, count as usize)?;
        for i in 0..count {
            pages.push(vacant_page(alloc)?)?;
        }
        Ok(Pages { pages })
    }

    /// How many slots there are.
    pub fn len(&self) -> usize
        ensures { result ≡ length self.now }
    {
        self.pages.len() * 256
    }

    /// What stands in a slot.
    pub fn at(&self, i: usize) -> &Option<Kept<V>>
        requires { i < length self.now }
        ensures { result.now ≡ slot_at self.now i }
    {
        &self.pages[i / 256][i % 256]
    }

    /// Puts this into a slot.
    pub fn put(&mut self, i: usize, slot: Option<Kept<V>>)
        requires { i < length self.old }
        ensures { self.new ≡ set self.old i slot }
    {
        self.pages[i / 256][i % 256] = slot;
    }
}
