// Opening all nodes of a ledger.
ghost use Rattle.std.specs.Prelude.{◌≡◌, ◌∷◌, [], ◌≤◌, ℕ, Some, IfOk, IfErr, OnErr, MatchOption};
ghost use Rattle.std.specs.Option.{option_copied};
ghost use Rattle.coord_log.specs.Opening.{IsCoord};
ghost use Rattle.rack_ledgers.specs.Places.{EachFrom, MayReturn};
ghost use Rattle.rack_ledgers.specs.Others.{KeepsOthers};
ghost use Rattle.rack_ledgers.specs.Racked.{OfTold, IsDiskBack};
ghost use Rattle.rack_ledgers.specs.Refused.{IsNodeRefusal};
ghost use Rattle.rack_ledgers.specs.Ledgers.{IsNodeAt, IsMintOf, IsOtherMint, IsUnledBy, IsUnopened, IsUnopenedBy};
ghost use Rattle.rack_ledgers.specs.Opened.{IsLedgerOpenedFrom, AreLogsOpenedFrom, AllBack};

use crate::at_once::open_at_once;
use crate::{Nodes, close_all, open_one};
use cbdc_types::{Answer, Hash, Header, NodeId};
use coord_log::CoordLog;
use outside::Rack;
use std::alloc::Global;
use std::thread::Threads;

// What is answered where another mint than the one with this id began the ledger with this header.
fn other_mint(kept: &Header, id: Option<&Hash>) -> Option<Answer>
    requires { kept.now.node ≡ 0 }
    ensures { MatchOption result
        (IsMintOf (option_copied id.entry) kept.now) (IsOtherMint (option_copied id.entry) kept.now) }
{
    let id = id?;
    if kept.genesis == *id {
        return None;
    }
    Some(Answer::Foreign {
        node: NodeId(0),
        kept: *kept,
        asked: Header {
            node: NodeId(0),
            shape: kept.shape,
            genesis: *id,
        },
    })
}

// The first coordinator, where the mint with this id began its ledger. After a fault its disk is back.
fn open_lead<R: Rack>(
    alloc: Global,
    rack: &mut R,
    id: Option<&Hash>,
) -> Result<CoordLog<R::Disk>, Answer>
    requires { R.can_take rack.old 0 }
    ensures opened { IfOk result (λ l. (l.header.node ≡ 0)
        × IsNodeAt R.Disk.Disk (R.held rack.old) IsCoord l.header 0 l) }
    ensures minted { IfOk result (λ l. IsMintOf (option_copied id.entry) l.header) }
    ensures since { IfOk result (λ l. R.count rack.old 0 ≤ R.Disk.count l.disk) }
    ensures refusal { IfErr result (IsUnledBy R.Disk.Disk
        (R.held rack.old) (R.count rack.old) (R.count rack.new) (option_copied id.entry)) }
    ensures kind { IfErr result IsNodeRefusal }
    ensures held { OnErr result (IsDiskBack R.Disk.Disk
        (R.count rack.old 0) (R.count rack.new 0) (R.held rack.old 0) (R.held rack.new 0)) }
    ensures out { IfOk result (MayReturn (λ x. R.Disk.count x.disk) (R.can_put rack.new) 0) }
    ensures back { OnErr result (R.can_take rack.new 0) }
    ensures others { KeepsOthers R.Rack 0 1 rack.old rack.new }
{
    let lead: CoordLog<R::Disk> = match open_one(alloc, rack, NodeId(0), None) {
        Ok(lead) => lead,
        Err(fault) => return Err(fault),
    };
    match other_mint(lead.header(), id) {
        None => Ok(lead),
        Some(fault) => {
            rack.put(NodeId(0), lead.into_disk());
            Err(fault)
        }
    }
}

// The first coordinator in a list of its own.
fn lead_alone<R: Rack>(
    alloc: Global,
    rack: &mut R,
    lead: CoordLog<R::Disk>,
) -> Result<Vec<CoordLog<R::Disk>>, Answer>
    requires { MayReturn (λ x. R.Disk.count x.disk) (R.can_put rack.old) 0 lead }
    ensures memory { IfErr result (λ e. e ≡ Answer.Memory) }
    ensures alone { IfOk result (λ v. v.items ≡ lead ∷ []) }
    ensures closed { OnErr result (OfTold (R.held rack.new 0) (λ now. now ≡ lead.disk)) }
    ensures out { IfOk result
        (λ v. EachFrom (MayReturn (λ x. R.Disk.count x.disk) (R.can_put rack.new)) 0 v.items) }
    ensures back { OnErr result (R.can_take rack.new 0) }
    ensures others { KeepsOthers R.Rack 0 1 rack.old rack.new }
{
    let mut logs = Vec::new(alloc);
    match logs.push(lead) {
        Ok(()) => Ok(logs),
        Err(failed) => {
            rack.put(NodeId(0), failed.value.into_disk());
            logs.destroy_empty();
            Err(Answer::Memory)
        }
    }
}

// The coordinators, the first of which says how many there are.
fn open_logs<W: Threads + Sync, R: Rack>(
    rt: &W,
    alloc: Global,
    rack: &mut R,
    id: Option<&Hash>,
) -> Result<(Header, Vec<CoordLog<R::Disk>>), Answer>
where
    R::Disk: Send,
    requires { (n : ℕ) → R.can_take rack.old n }
    ensures opened { IfOk result (λ l. AreLogsOpenedFrom R.Disk.Disk R.Rack rack.old rack.new l.0 l.1.items) }
    ensures minted { IfOk result (λ l. IsMintOf (option_copied id.entry) l.0) }
    ensures refusal { IfErr result (IsUnledBy R.Disk.Disk
        (R.held rack.old) (R.count rack.old) (R.count rack.new) (option_copied id.entry)) }
    ensures kind { IfErr result IsNodeRefusal }
    ensures back { OnErr result (AllBack R.Disk.Disk R.Rack rack.old rack.new) }
    ensures later { (n : ℕ) → R.count rack.old n ≤ R.count rack.new n }
{
    let lead = match open_lead(alloc, rack, id) {
        Ok(lead) => lead,
        Err(fault) => return Err(fault),
    };
    let header = *lead.header();
    let count = header.shape.coordinators();
    let _nodes = header.shape.node_count();
    let alone = match lead_alone(alloc, rack, lead) {
        Ok(alone) => alone,
        Err(fault) => return Err(fault),
    };
    match open_at_once(rt, alloc, rack, &header, 0, count, alone) {
        Ok(logs) => Ok((header, logs)),
        Err(fault) => Err(fault),
    }
}

// Opens all nodes of the ledger whose first node is node 0, and which the mint with this id began, if one is given.
fn open_ledger<W: Threads + Sync, R: Rack>(
    rt: &W,
    alloc: Global,
    rack: &mut R,
    id: Option<&Hash>,
) -> Result<Nodes<R::Disk>, Answer>
where
    R::Disk: Send,
    requires { (n : ℕ) → R.can_take rack.old n }
    ensures opened { IfOk result (λ l. IsLedgerOpenedFrom R.Disk.Disk R.Rack
        rack.old rack.new l.header l.logs.items l.shards.items) }
    ensures minted { IfOk result (λ l. IsMintOf (option_copied id.entry) l.header) }
    ensures refusal { IfErr result (IsUnopenedBy R.Disk.Disk
        (R.held rack.old) (R.count rack.old) (R.count rack.new) (option_copied id.entry)) }
    ensures kind { IfErr result IsNodeRefusal }
    ensures back { OnErr result (AllBack R.Disk.Disk R.Rack rack.old rack.new) }
    ensures later { (n : ℕ) → R.count rack.old n ≤ R.count rack.new n }
{
    let (header, logs) = match open_logs(rt, alloc, rack, id) {
        Ok(opened) => opened,
        Err(fault) => return Err(fault),
    };
    let first = header.shape.coordinators();
    let count = header.shape.shards();
    match open_at_once(rt, alloc, rack, &header, first, count, Vec::new(alloc)) {
        Ok(shards) => Ok(Nodes {
            header,
            logs,
            shards,
        }),
        Err(fault) => {
            close_all(rack, 0, logs);
            Err(fault)
        }
    }
}

/// Opens all nodes of the ledger whose first node is node 0: the coordinators behind it beside each other, then the shards. After a fault all
/// disks are back.
///
/// Out of memory: all disks are back as they were read.
pub fn open_nodes<W: Threads + Sync, R: Rack>(
    rt: &W,
    alloc: Global,
    rack: &mut R,
) -> Result<Nodes<R::Disk>, Answer>
where
    R::Disk: Send,
    requires { (n : ℕ) → R.can_take rack.old n }
    // They are all nodes of the ledger, each stands for what was told of its disk, and all may be put back.
    ensures opened { IfOk result (λ l. IsLedgerOpenedFrom R.Disk.Disk R.Rack
        rack.old rack.new l.header l.logs.items l.shards.items) }

    // Why the first that can't be opened is not, and the disks are back.
    ensures refusal { IfErr result
        (IsUnopened R.Disk.Disk (R.held rack.old) (R.count rack.old) (R.count rack.new)) }
    ensures kind { IfErr result IsNodeRefusal }
    ensures back { OnErr result (AllBack R.Disk.Disk R.Rack rack.old rack.new) }
    ensures later { (n : ℕ) → R.count rack.old n ≤ R.count rack.new n }
{
    open_ledger(rt, alloc, rack, None)
}

/// Opens all nodes of the ledger whose first node is node 0 and which the mint with this id began: the coordinators behind it beside each other,
/// then the shards. Node 0 is foreign where another mint did. After a fault all disks are back.
///
/// Out of memory: all disks are back as they were read.
pub fn open_minted<W: Threads + Sync, R: Rack>(
    rt: &W,
    alloc: Global,
    rack: &mut R,
    id: &Hash,
) -> Result<Nodes<R::Disk>, Answer>
where
    R::Disk: Send,
    requires { (n : ℕ) → R.can_take rack.old n }
    // They are all nodes of the ledger, which this mint began, each stands for what was told of its disk, and all may be put back.
    ensures minted { IfOk result (λ l. l.header.genesis ≡ id.now) }
    ensures opened { IfOk result (λ l. IsLedgerOpenedFrom R.Disk.Disk R.Rack
        rack.old rack.new l.header l.logs.items l.shards.items) }

    // Why the first that can't be opened is not, and the disks are back.
    ensures refusal { IfErr result
        (IsUnopenedBy R.Disk.Disk (R.held rack.old) (R.count rack.old) (R.count rack.new) (Some id.now)) }
    ensures kind { IfErr result IsNodeRefusal }
    ensures back { OnErr result (AllBack R.Disk.Disk R.Rack rack.old rack.new) }
    ensures later { (n : ℕ) → R.count rack.old n ≤ R.count rack.new n }
{
    open_ledger(rt, alloc, rack, Some(id))
}
