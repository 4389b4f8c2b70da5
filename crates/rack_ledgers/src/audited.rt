// The audit of the ledger on a rack.
ghost use Rattle.std.specs.Prelude.{◌≡◌, ◌⊎◌, ◌+◌, ◌≤◌, ◌<◌, ◌^◌, ℕ, length, Some, IfOk, IfErr, OnOk};
ghost use Rattle.cbdc_model.specs.After.{IsJournal};
ghost use Rattle.cbdc_model.specs.Coins.{genesis_id as mint_id};
ghost use Rattle.rack_ledgers.specs.Racked.{AreUnchanged};
ghost use Rattle.rack_ledgers.specs.Refused.{IsNodeRefusal};
ghost use Rattle.rack_ledgers.specs.Ledgers.{ByPlace, IsUnopenedBy};
ghost use Rattle.rack_ledgers.specs.Opened.{AllBack};
ghost use Rattle.rack_ledgers.specs.Caused.{listed_journals};
ghost use Rattle.rack_ledgers.specs.Audited.{HasAuditVerdict, IsAudited, HistoryHasRoom, HistoryIsHeld, Accounts};

use crate::{Nodes, close_nodes, lend_logs, lend_shards, open_minted};
use audit::{Verdict, audit, merge};
use cbdc_types::{Answer, FullTx, Output};
use outside::{Disk, Rack};
use sentinel::genesis_id;
use std::alloc::{AllocError, Global};
use std::thread::Threads;

// The verdict on the history of open nodes.
fn verdict_of<W: Threads + Sync, D: Disk>(
    rt: &W,
    alloc: Global,
    nodes: &Nodes<D>,
    mint: &[Output],
    handed: &[FullTx],
) -> Result<Verdict, AllocError>
    requires few { length nodes.now.logs.items + length nodes.now.shards.items < 2 ^ 32 }
    requires logs { ByPlace (λ n l. IsJournal l.header l.journal) nodes.now.logs.items }
    requires shards { ByPlace (λ n s. IsJournal s.header s.journal) nodes.now.shards.items }
    ensures { IfOk result (HasAuditVerdict nodes.now.header.shape
        (listed_journals nodes.now.logs.items nodes.now.shards.items) mint.now handed.now) }
{
    let mut all = Vec::new(alloc);
    lend_logs(nodes.logs.as_slice(), &mut all)?;
    lend_shards(nodes.shards.as_slice(), &mut all)?;
    let history = merge(alloc, &all)?;
    audit(
        rt,
        alloc,
        &nodes.header.shape,
        &all,
        history.as_slice(),
        mint,
        handed,
    )
}

/// Audits the ledger on a rack, which should be that of a mint, with transactions that were handed in. All disks are back, and no journal
/// has changed. All processors make the compact forms of what was handed in.
///
/// At Ok the one verdict of an audit of the history of the ledger that the disks tell, with this mint and what was handed in. There are rows in
/// order, in which the journal of each node of a ledger of this mint is what its disk's content opens to, and which have no other rows. Whatever the
/// verdict, each disk that is told had room for its journal of these rows and for what is kept for the batches open there, and reads as before, and
/// whatever a crash may leave of one that told its content opens to just that journal. Where it is Sound, the money of this ledger is accounted for
/// (`account_law`).
///
/// Else the first node that can't be opened or is of another ledger, and why. All disks are back as they were read.
pub fn audit_on<W: Threads + Sync, R: Rack>(
    rt: &W,
    alloc: Global,
    rack: &mut R,
    mint: &[Output],
    handed: &[FullTx],
) -> Result<Verdict, Answer>
where
    R::Disk: Send,
    requires { (n : ℕ) → R.can_take rack.old n }
    ensures audited { IfOk result (IsAudited R.Disk.Disk (R.held rack.old) mint.now handed.now) }

    // Whatever the verdict, each disk had room for its journal of the history that was audited, and for what is kept for the batches open there, and it
    // still holds that journal.
    ensures room { IfOk result (λ v. (was : IsAudited R.Disk.Disk (R.held rack.old) mint.now handed.now v)
        × HistoryHasRoom R.Disk.Disk (R.held rack.old) was.shape was.rows × HistoryIsHeld R.Disk.Disk
        (R.held rack.old) (R.held rack.new) was.shape (mint_id mint.now) was.rows) }

    // Where all is sound, no money was made, lost or spent twice, and the shards hold just what is left: the sentence.
    ensures sentence { IfOk result (Accounts R.Disk.Disk (R.held rack.old) mint.now handed.now) }

    // Why there is no verdict.
    ensures refusal { IfErr result (λ a. IsUnopenedBy R.Disk.Disk (R.held rack.old)
        (R.count rack.old) (R.count rack.new) (Some (mint_id mint.now)) a ⊎ (a ≡ Answer.Memory)) }
    ensures kind { IfErr result IsNodeRefusal }
    ensures unchanged { OnOk result (AreUnchanged R.Disk.Disk (R.held rack.old) (R.held rack.new)) }
    ensures back { AllBack R.Disk.Disk R.Rack rack.old rack.new }
    ensures later { (n : ℕ) → R.count rack.old n ≤ R.count rack.new n }
{
    let Ok(id) = genesis_id(alloc, mint) else {
        return Err(Answer::Memory);
    };
    let nodes = match open_minted(rt, alloc, rack, &id) {
        Ok(nodes) => nodes,
        Err(fault) => return Err(fault),
    };
    let verdict = verdict_of(rt, alloc, &nodes, mint, handed);
    close_nodes(rack, nodes);
    match verdict {
        Ok(verdict) => Ok(verdict),
        Err(_) => Err(Answer::Memory),
    }
}
