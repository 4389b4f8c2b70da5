// What the entries of a part claim.
ghost use Rattle.std.specs.Prelude.{◌≡◌, ◌||◌, [], IfOk, OnOk};
ghost use Rattle.cbdc_model.specs.Records.{Digest};
ghost use Rattle.cbdc_model.specs.Status.{has};

use crate::comparing::is_same_hash;
use cbdc_types::Hash;
use shard_table::Table;
use std::alloc::{AllocError, Global};
use std::marker::Model;

// The hashes of a part that has no more than so many are kept in a list and compared one by one; those of a larger one go into a table.
const FEW: usize = 16;

/// The hashes that the Held entries of a part claim.
#[derive(Drop)]
pub struct Claims {
    room: usize,
    few: Vec<Hash>,
    many: Table,
}

impl Model for Claims {
    ghost use Rattle.std.specs.Prelude.{List, ◌++◌};
    ghost use Rattle.cbdc_model.specs.Records.{Digest};

    ghost Value = { List Digest };

    ghost view = { λ c. c.few.items ++ c.many.hashes };
}

// Whether a hash stands in a list.
fn is_listed(hashes: &[Hash], x: &Hash) -> bool
    ensures { result ≡ has hashes.now x.now }
{
    for y in hashes {
        if is_same_hash(y, x) {
            return true;
        }
    }
    false
}

// Puts hashes into a table.
fn put_all(table: &mut Table, hashes: &[Hash]) -> Result<(), AllocError>
    ensures { OnOk result ((y : Digest)
        → has table.new.hashes y ≡ (has hashes.now y || has table.old.hashes y)) }
{
    table.reserve(hashes.len() as u64)?;
    for x in hashes {
        table.insert(*x);
    }
    Ok(())
}

// A table for the hashes of a part with so many, which has no room where they go into a list.
fn table_for(alloc: Global, count: u64) -> Result<Table, AllocError>
    ensures { IfOk result (λ t. t.hashes ≡ []) }
{
    let mut table = Table::new(alloc);
    if count > FEW as u64 {
        table.reserve(count)?;
    }
    Ok(table)
}

impl Claims {
    /// No hash, where the part has so many.
    pub fn of_part(alloc: Global, count: u64) -> Result<Claims, AllocError>
        ensures { IfOk result (λ c. c ≡ []) }
    {
        Ok(Claims {
            room: if count > FEW as u64 { 0 } else { FEW },
            few: Vec::new(alloc),
            many: table_for(alloc, count)?,
        })
    }

    /// Whether the hash is claimed. Takes no memory.
    pub fn contains(&self, x: &Hash) -> bool
        ensures { result ≡ has self.now x.now }
    {
        is_listed(self.few.as_slice(), x) || self.many.contains(x)
    }

    /// Claims these hashes too.
    pub fn claim(&mut self, inputs: &[Hash]) -> Result<(), AllocError>
        ensures { OnOk result ((y : Digest) → has self.new y ≡ (has inputs.now y || has self.old y)) }
    {
        if inputs.len() <= self.room.saturating_sub(self.few.len()) {
            self.few.extend_from_slice(inputs)?;
        } else {
            put_all(&mut self.many, inputs)?;
        }
        Ok(())
    }
}
