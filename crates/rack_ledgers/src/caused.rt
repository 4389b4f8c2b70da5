// The check of causes ahead of all that resumes.
ghost use Rattle.std.specs.Prelude.{◌+◌, ◌≤◌, ◌<◌, ◌^◌, ℕ, length, IfOk, IfErr, OnErr, MatchOption};
ghost use Rattle.cbdc_model.specs.After.{IsJournal};
ghost use Rattle.rack_ledgers.specs.Ledgers.{ByPlace};
ghost use Rattle.rack_ledgers.specs.Opened.{IsLedgerOpenedFrom, AllBack};
ghost use Rattle.rack_ledgers.specs.Caused.{listed_journals, AreCaused, HasUncaused, IsUnresumed};

use crate::lent::{lend_logs, lend_shards};
use crate::{Nodes, close_nodes, open_nodes};
use audit::{causes, merge};
use cbdc_types::{Answer, UnsoundKind};
use outside::{Disk, Rack};
use std::alloc::{AllocError, Global};
use std::thread::Threads;

// The first place of the history that is not caused by what stands before it.
fn first_uncaused<D: Disk>(alloc: Global, nodes: &Nodes<D>) -> Result<Option<u64>, AllocError>
    requires few { length nodes.now.logs.items + length nodes.now.shards.items < 2 ^ 32 }
    requires logs { ByPlace (λ n l. IsJournal l.header l.journal) nodes.now.logs.items }
    requires shards { ByPlace (λ n s. IsJournal s.header s.journal) nodes.now.shards.items }
    ensures { IfOk result (λ first. MatchOption first
        (AreCaused nodes.now.header.shape (listed_journals nodes.now.logs.items nodes.now.shards.items))
        (HasUncaused nodes.now.header.shape (listed_journals nodes.now.logs.items nodes.now.shards.items))) }
{
    let mut all = Vec::new(alloc);
    lend_logs(nodes.logs.as_slice(), &mut all)?;
    lend_shards(nodes.shards.as_slice(), &mut all)?;
    let history = merge(alloc, &all)?;
    causes(alloc, &nodes.header.shape, &all, history.as_slice())
}

/// Opens all nodes, where each record of their history is caused by what stands before it. After a fault all disks are back.
///
/// Out of memory: all disks are back as they were read.
pub fn open_caused<W: Threads + Sync, R: Rack>(
    rt: &W,
    alloc: Global,
    rack: &mut R,
) -> Result<Nodes<R::Disk>, Answer>
where
    R::Disk: Send,
    requires { (n : ℕ) → R.can_take rack.old n }
    // They are all nodes of the ledger, each stands for what was told of its disk, all may be put back, and their history is caused.
    ensures opened { IfOk result (λ l. IsLedgerOpenedFrom R.Disk.Disk R.Rack
        rack.old rack.new l.header l.logs.items l.shards.items) }
    ensures caused { IfOk result
        (λ l. AreCaused l.header.shape (listed_journals l.logs.items l.shards.items)) }

    // Why they are not, and the disks are back.
    ensures refusal { IfErr result
        (IsUnresumed R.Disk.Disk (R.held rack.old) (R.count rack.old) (R.count rack.new)) }
    ensures back { OnErr result (AllBack R.Disk.Disk R.Rack rack.old rack.new) }
    ensures later { (n : ℕ) → R.count rack.old n ≤ R.count rack.new n }
{
    let nodes = match open_nodes(rt, alloc, rack) {
        Ok(nodes) => nodes,
        Err(fault) => return Err(fault),
    };
    let fault = match first_uncaused(alloc, &nodes) {
        Ok(None) => return Ok(nodes),
        Ok(Some(place)) => Answer::Unsound {
            place,
            kind: UnsoundKind::Cause,
        },
        Err(_) => Answer::Memory,
    };
    close_nodes(rack, nodes);
    Err(fault)
}
